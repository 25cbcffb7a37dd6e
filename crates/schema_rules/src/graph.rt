ghost use Rattle.std.specs.Prelude.{◌≡◌, ◌<◌, [], ◌∷◌, ◌++◌, length, replicate, slice_index_or, slice_set, OnOk, IfOk, All};
ghost use Rattle.schema_rules.specs.Graph.{IsGraph, AreReached, targets_below};

use crate::marks::{Marks, no_marks, visit};
use ck_base::NoMemory;
use std::alloc::Global;
use std::marker::Model;

/// The nodes to which one node leads, with repetitions.
#[derive(Debug, Drop)]
struct Targets {
    nodes: Vec<usize>,
}

impl Model for Targets {
    ghost use Rattle.std.specs.Prelude.{ℕ, List};

    ghost Value = { List ℕ };

    ghost view = { λ targets. targets.nodes.items };
}

impl Targets {
    /// No nodes.
    fn new(alloc: Global) -> Targets
        ensures { result ≡ [] }
    {
        Targets {
            nodes: Vec::new(alloc),
        }
    }

    /// One node more.
    fn push(&mut self, node: usize) -> Result<(), NoMemory>
        ensures { OnOk result (self.new ≡ self.old ++ node ∷ []) }
    {
        self.nodes.push(node)?;
        Ok(())
    }

    /// The nodes.
    fn as_slice(&self) -> &[usize]
        ensures { result.now ≡ self.now }
    {
        self.nodes.as_slice()
    }
}

/// Steps between numbered nodes. It is seen as the list of the nodes to which each node leads.
#[derive(Debug, Drop)]
pub struct Graph {
    targets: Vec<Targets>,
}

impl Model for Graph {
    ghost use Rattle.std.specs.Prelude.{ℕ, List};

    ghost Value = { List (List ℕ) };

    ghost view = { λ graph. graph.targets.items };
}

impl Graph {
    /// So many nodes, without any step.
    pub fn new(alloc: Global, count: usize) -> Result<Graph, NoMemory>
        ensures { IfOk result (λ graph. graph ≡ replicate count []) }
    {
        let mut targets = Vec::with_capacity(alloc, count)?;
        for _ in 0..count {
            targets.push(Targets::new(alloc))?;
        }
        Ok(Graph { targets })
    }

    /// How many nodes there are.
    fn len(&self) -> usize
        ensures { result ≡ length self.now }
    {
        self.targets.len()
    }

    /// The nodes to which a node leads.
    fn targets_of(&self, node: usize) -> &[usize]
        requires { node < length self.now }
        ensures { result.now ≡ slice_index_or self.now node [] }
    {
        self.targets[node].as_slice()
    }

    /// What its lists are allocated by.
    fn allocator(&self) -> Global {
        *self.targets.allocator()
    }

    /// A step more.
    pub fn add(&mut self, from: usize, to: usize) -> Result<(), NoMemory>
        requires { from < length self.old }
        ensures { OnOk result (self.new ≡ slice_set self.old from (slice_index_or self.old from [] ++ to ∷ [])) }
    {
        self.targets[from].push(to)
    }

    /// The nodes that can be reached from the start in any number of steps, the start among them. Each node and each step is looked at
    /// once.
    pub fn reached(&self, start: &[usize]) -> Result<Marks, NoMemory>
        requires graph { IsGraph self.now }
        requires nodes { All (λ node. node < length self.now) start.now }
        ensures { IfOk result (λ marks. AreReached self.now start.now marks) }
    {
        let alloc = self.allocator();
        let mut marks = no_marks(alloc, self.len())?;
        let mut waiting = Vec::new(alloc);
        visit(start, &mut marks, &mut waiting)?;
        while let Some(node) = waiting.pop() {
            visit(self.targets_of(node), &mut marks, &mut waiting)?;
        }
        Ok(Marks::new(marks))
    }

    /// The nodes to which marked nodes lead.
    pub fn targets(&self, marks: &Marks) -> Result<Vec<usize>, NoMemory>
        ensures { IfOk result (λ nodes. nodes.items ≡ targets_below self.now marks.now (length self.now)) }
    {
        let mut nodes = Vec::new(*self.targets.allocator());
        for (node, targets) in self.targets.iter().enumerate() {
            if marks.has(node) {
                nodes.extend_from_slice(targets.as_slice())?;
            }
        }
        Ok(nodes)
    }
}
