//! Families of duties: no duty has another within it, and they stand in their order, so that each
//! set of duties is one list.

ghost use Rattle.std.specs.Prelude.{◌≡◌, ◌≤◌, ◌∷◌, ◌++◌, [], not, length, take, IfOk, OnOk};
ghost use Rattle.std.specs.List.{list_any};
ghost use Rattle.fin_monitor.specs.Duties.{joined, within, AreAlike};
ghost use Rattle.fin_monitor.specs.Lefts.{kept, precedes, IsAscending, IsFamily, IsPlaceFor};

use crate::duty::Duty;
use hy_base::M;
use std::alloc::Global;

/// Duties.
pub type Family<const W: usize> = Vec<Duty<W>>;

/// Whether some duty of the list is within `d`. The last is asked first: those next to `d` in the
/// order have most of its greatest members.
fn has_within<const W: usize>(list: &[Duty<W>], d: &Duty<W>) -> bool
    requires { W ≤ 16 }
    ensures { result ≡ list_any (λ e. within e d.now) list.now }
{
    let mut i = list.len();
    while i > 0 {
        i -= 1;
        if list[i].within(d) {
            return true;
        }
    }
    false
}

/// The place in the list before which `d` is to stand, by halves.
fn place_for<const W: usize>(list: &[Duty<W>], d: &Duty<W>) -> usize
    requires { IsAscending list.now }
    ensures { IsPlaceFor list.now d.now result }
{
    list.partition_point(
        |e: &Duty<W>| -> bool
            ensures { result ≡ not (precedes d.entry.now e.now) }
        { !d.precedes(e) },
    )
}

/// Drops the duties that `d` is within. None of these stands before the place.
fn drop_with<const W: usize>(family: &mut Family<W>, place: usize, d: &Duty<W>)
    requires width { W ≤ 16 }
    requires inside { place ≤ length family.old.items }
    requires before { kept (take place family.old.items) d.now ≡ take place family.old.items }
    ensures { family.new.items ≡ kept family.old.items d.now }
{
    let mut kept = place;
    for i in place..family.len() {
        let e = family[i];
        if !d.within(&e) {
            family[kept] = e;
            kept += 1;
        }
    }
    family.truncate(kept);
}

/// Adds a duty, unless one is within it, and drops those that it is within. A duty precedes those
/// that it is within: so those before its place are asked for the one, and those behind it for the
/// other. In time linear in the family, and less where one near to its place is within it.
pub fn add<const W: usize>(family: &mut Family<W>, d: Duty<W>) -> M<()>
    requires width { W ≤ 16 }
    requires family { IsFamily family.old.items }
    ensures family { IsFamily family.new.items }
    ensures added { OnOk result (AreAlike family.new.items (family.old.items ++ d.entry ∷ [])) }
{
    let place = place_for(family, &d);
    if has_within(&family[..place], &d) {
        return Ok(());
    }
    drop_with(family, place, &d);
    family.insert(place, d)?;
    Ok(())
}

/// Adds each duty of a list.
pub fn add_all<const W: usize>(family: &mut Family<W>, list: &[Duty<W>]) -> M<()>
    requires width { W ≤ 16 }
    requires family { IsFamily family.old.items }
    ensures family { IsFamily family.new.items }
    ensures added { OnOk result (AreAlike family.new.items (family.old.items ++ list.now)) }
{
    for d in list {
        add(family, *d)?;
    }
    Ok(())
}

/// Adds each union of `d` and a duty of a list.
pub fn add_with<const W: usize>(family: &mut Family<W>, d: &Duty<W>, list: &[Duty<W>]) -> M<()>
    requires width { W ≤ 16 }
    requires family { IsFamily family.old.items }
    ensures family { IsFamily family.new.items }
    ensures added { OnOk result (AreAlike family.new.items
        (family.old.items ++ joined (d.entry.now ∷ []) list.now)) }
{
    for e in list {
        add(family, d.both(e))?;
    }
    Ok(())
}

/// Adds each union of a duty of one list and a duty of the other.
pub fn add_joined<const W: usize>(
    family: &mut Family<W>,
    list: &[Duty<W>],
    other: &[Duty<W>],
) -> M<()>
    requires width { W ≤ 16 }
    requires family { IsFamily family.old.items }
    ensures family { IsFamily family.new.items }
    ensures added { OnOk result (AreAlike family.new.items (family.old.items
        ++ joined list.now other.now)) }
{
    for d in list {
        add_with(family, d, other)?;
    }
    Ok(())
}

/// The family of one duty.
pub fn single<const W: usize>(alloc: Global, d: Duty<W>) -> M<Family<W>>
    ensures { IfOk result (λ family. family.items ≡ d.entry ∷ []) }
{
    let mut family = Vec::new(alloc);
    family.push(d)?;
    Ok(family)
}
