ghost use Rattle.std.specs.Prelude.{◌≡◌, map};
ghost use Rattle.hy_read.specs.Results.{last_place_of};

/// The last place of `bound` among the variables: of equal ones the last hides the others. In time
/// linear in the variables.
pub fn last_place(variables: &[&[u8]], bound: &[u8]) -> Option<usize>
    ensures { result ≡ last_place_of bound.now (map (λ v. v.now) variables.now) }
{
    let mut last = None;
    for (i, variable) in variables.iter().enumerate() {
        if *variable == bound {
            last = Some(i);
        }
    }
    last
}
