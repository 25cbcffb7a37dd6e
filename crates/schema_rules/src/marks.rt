ghost use Rattle.std.specs.Prelude.{◌≡◌, ℕ, ◌<◌, true, false, length, replicate, slice_set, IfOk, OnOk, All};
ghost use Rattle.schema_rules.specs.Graph.{among, is_marked, visited};

use ck_base::NoMemory;
use std::alloc::Global;
use std::marker::Model;

/// Which nodes are marked, by their numbers.
#[derive(Debug, Drop)]
pub struct Marks {
    marks: Vec<bool>,
}

impl Model for Marks {
    ghost use Rattle.std.specs.Prelude.{Bool, List};

    ghost Value = { List Bool };

    ghost view = { λ marks. marks.marks.items };
}

impl Marks {
    /// These marks. It takes no memory.
    pub fn new(marks: Vec<bool>) -> Marks
        ensures { result ≡ marks.items }
    {
        Marks { marks }
    }

    /// Takes the mark of a node away.
    pub fn clear(&mut self, node: usize)
        requires { node < length self.old }
        ensures { self.new ≡ slice_set self.old node false }
    {
        self.marks[node] = false;
    }

    /// Whether a node is marked.
    pub fn has(&self, node: usize) -> bool
        ensures { result ≡ is_marked self.now node }
    {
        node < self.marks.len() && self.marks[node]
    }
}

/// So many nodes, none of them marked.
pub fn no_marks(alloc: Global, count: usize) -> Result<Vec<bool>, NoMemory>
    ensures { IfOk result (λ marks. marks.items ≡ replicate count false) }
{
    vec![in alloc; false; count]
}

/// So many nodes, of which these are marked.
pub fn marked(alloc: Global, count: usize, nodes: &[usize]) -> Result<Marks, NoMemory>
    requires { All (λ node. node < count) nodes.now }
    ensures size { IfOk result (λ marks. length marks ≡ count) }
    ensures marks { IfOk result (λ marks. (node : ℕ) → is_marked marks node ≡ among nodes.now node) }
{
    let mut marks = no_marks(alloc, count)?;
    for node in nodes {
        marks[*node] = true;
    }
    Ok(Marks { marks })
}

/// So many nodes, all of them marked.
pub fn all_marked(alloc: Global, count: usize) -> Result<Marks, NoMemory>
    ensures { IfOk result (λ marks. marks ≡ replicate count true) }
{
    let marks = vec![in alloc; true; count]?;
    Ok(Marks { marks })
}

/// Marks each of these nodes that isn't marked yet, and puts it behind those that wait.
pub fn visit(
    nodes: &[usize],
    marks: &mut Vec<bool>,
    waiting: &mut Vec<usize>,
) -> Result<(), NoMemory>
    requires { All (λ node. node < length marks.old.items) nodes.now }
    ensures { OnOk result ((marks.new.items, waiting.new.items) ≡ visited nodes.now marks.old.items waiting.old.items) }
{
    for node in nodes {
        let node = *node;
        if !marks[node] {
            marks[node] = true;
            waiting.push(node)?;
        }
    }
    Ok(())
}
