//! The closure of jobs.

ghost use Rattle.std.specs.Prelude.{◌≡◌, ◌<◌, ◌≤◌, ◌++◌, ℕ, List, All, length, IfOk, IsTrue, OnOk, IsErrOf};
ghost use Rattle.hy_formula.specs.Trees.{tree_of, vars_below};
ghost use Rattle.ltl_closure.specs.Bodies.{body_closure, body_nodes};
ghost use Rattle.ltl_closure.specs.Nodes.{node_at, PartsBelow};
ghost use Rattle.ltl_closure.specs.Plain.{plain_node};
ghost use Rattle.ltl_closure.specs.Closures.{closure};
ghost use Rattle.ltl_closure.specs.Jobs.{Task, tasks_by, tasks_of, forms_of, task_nodes, closure_of, IsIdentity, IsMapped};
ghost use Rattle.ltl_closure.specs.Numbered.{Visited, IsNumberOf};

use crate::closure_error::ClosureError;
use crate::job::{Job, JobList, VariableMap};
use crate::node::Node;
use crate::numbering::Numbering;
use hy_base::{M, NumList};
use hy_bits::BitRow;
use hy_formula::Body;
use indexmap::IndexSet;
use std::alloc::Global;
use std::marker::Model;

/// A set of members of a closure, by their numbers.
pub type Obl<const W: usize> = BitRow<W>;

/// The distinct parts of the normal forms of some jobs, numbered from 0 at their first visits: the
/// jobs in order, the maps of a job in order, and of a form its left operand, its right operand,
/// itself.
#[derive(Drop)]
pub struct Closure {
    members: IndexSet<Node>,
    roots: NumList,
}

impl Model for Closure {
    ghost use Rattle.std.specs.Prelude.{map};
    ghost use Rattle.ltl_closure.specs.Jobs.{Rooted};
    ghost use Rattle.ltl_closure.specs.Plain.{plain_node};
    ghost use Rattle.ltl_closure.specs.Numbered.{IsClosure};

    ghost Value = { Rooted };

    ghost view = { λ c. record { nodes = map plain_node c.members.keys; roots = c.roots } };

    ghost invariant = { λ c. IsClosure (map plain_node c.members.keys) c.roots };
}

impl Closure {
    /// The closure of the normal forms of the jobs' bodies, negated where a job is not positive,
    /// under each of its maps.
    ///
    /// `Limit` comes exactly where there are more than 1,024 members, and as soon as one more is
    /// met. In time linear in the bodies, each times the number of its maps.
    pub fn new(alloc: Global, jobs: &JobList) -> Result<Closure, ClosureError>
        requires mapped { All IsMapped jobs.now }
        ensures closure { IfOk result (λ c. c ≡ closure_of (tasks_of jobs.now)) }
        ensures few { OnOk result (length (task_nodes (tasks_of jobs.now)) ≤ 1024) }
        ensures limit { IsErrOf result ClosureError.Limit
            → 1024 < length (task_nodes (tasks_of jobs.now)) }
    {
        let mut numbering = Numbering::new(alloc);
        let mut roots = NumList::new(alloc);
        for job in jobs.as_slice() {
            visit_job(&mut numbering, job, &mut roots)?;
        }
        Ok(Closure {
            members: numbering.members,
            roots,
        })
    }

    /// The closure of the normal form of a body whose variables are below `variables`, negated where
    /// not `positive`; each variable stands for itself, and the body is the only root.
    ///
    /// `Limit` comes exactly where there are more than 1,024 members, and as soon as one more is
    /// met. In time linear in the body.
    pub fn of_body(
        alloc: Global,
        body: &Body,
        variables: u8,
        positive: bool,
    ) -> Result<Closure, ClosureError>
        requires { IsTrue (vars_below variables (tree_of body.now)) }
        ensures closure { IfOk result (λ c. c ≡ body_closure (tree_of body.now) positive) }
        ensures few { OnOk result (length (body_nodes (tree_of body.now) positive) ≤ 1024) }
        ensures limit { IsErrOf result ClosureError.Limit
            → 1024 < length (body_nodes (tree_of body.now) positive) }
    {
        let map = identity(alloc, variables)?;
        let mut numbering = Numbering::new(alloc);
        let root = numbering.visit(body, map.as_slice(), positive, None)?;
        if numbering.full {
            return Err(ClosureError::Limit);
        }
        let mut roots = NumList::new(alloc);
        roots.push(u32::from(root))?;
        Ok(Closure {
            members: numbering.members,
            roots,
        })
    }

    /// How many members there are: at most 1,024.
    pub fn len(&self) -> usize
        ensures len { result ≡ length self.now.nodes }
        ensures few { length self.now.nodes ≤ 1024 }
        // Operands stand before what they belong to.
        ensures operands { (k : ℕ) → k < length self.now.nodes
            → PartsBelow k (node_at self.now.nodes k) }
    {
        self.members.len()
    }

    /// The member with number `i`.
    pub fn node(&self, i: u16) -> Node
        requires { i < length self.now.nodes }
        ensures node { plain_node result ≡ node_at self.now.nodes i }
        ensures operands { PartsBelow i (plain_node result) }
    {
        self.members.as_slice()[usize::from(i)]
    }

    /// The number of a node, where it is a member. In constant time.
    pub fn number_of(&self, node: Node) -> Option<u16>
        ensures { IsNumberOf self.now.nodes (plain_node node) result }
    {
        let _different = self.members.len();
        match self.members.get_index_of(&node) {
            Some(place) => Some(place as u16),
            None => None,
        }
    }

    /// The numbers of the whole normal forms, one for each map of each job, in their order.
    pub fn roots(&self) -> &NumList
        ensures roots { result.now ≡ self.now.roots }
        ensures within { All (λ k. k < length self.now.nodes) self.now.roots }
    {
        &self.roots
    }
}

/// Visits the normal form of a job's body under each of its maps, and adds their numbers.
fn visit_job(numbering: &mut Numbering, job: &Job, roots: &mut NumList) -> Result<(), ClosureError>
    requires mapped { IsMapped job.now }
    requires few { length numbering.old.members.keys ≤ 1024 }
    ensures few { length numbering.new.members.keys ≤ 1024 }
    ensures visited { OnOk result ((tasks : List Task) → Visited tasks numbering.old roots.old
        → Visited (tasks ++ tasks_by (tree_of job.now.body) job.now.positive job.now.maps)
        numbering.new roots.new) }
    ensures limit { IsErrOf result ClosureError.Limit
        → (tasks : List Task) → Visited tasks numbering.old roots.old → 1024 < length (closure
        (forms_of (tasks ++ tasks_by (tree_of job.now.body) job.now.positive job.now.maps))) }
{
    for map in job.maps.as_slice() {
        let root = numbering.visit(&job.body, map.as_slice(), job.positive, None)?;
        if numbering.full {
            return Err(ClosureError::Limit);
        }
        roots.push(u32::from(root))?;
    }
    Ok(())
}

/// The map of each of so many variables to itself.
fn identity(alloc: Global, variables: u8) -> M<VariableMap>
    ensures { IfOk result (λ m. IsIdentity m variables) }
{
    let mut map = VariableMap::new(alloc);
    for variable in 0..variables {
        map.push(variable)?;
    }
    Ok(map)
}
