//! Decision trees as lists of nodes.

ghost use Rattle.std.specs.Prelude.{ℕ, ◌≡◌, ◌<◌, ◌≤◌, ◌+◌, length};
ghost use Rattle.word_core.specs.Tree.{IsTree, AllLabels, label_of};

/// A node of a decision tree: a label, or a signal with the places of the two parts.
#[derive(Debug, Clone, Copy, PartialEq, Eq, Hash)]
pub enum Branch {
    Leaf(u64),
    Split { signal: u32, low: u64, high: u64 },
}

/// The label that a valuation leads to: from the last node on, to `low` or `high` by the signal's
/// bit. The list isn't empty, each Split names earlier places, and signals are below 64.
pub fn walk(nodes: &[Branch], bits: u64) -> u64
    requires { IsTree nodes.now }
    ensures label { result ≡ label_of nodes.now bits }
    ensures below { (n : ℕ) → AllLabels (λ l. l < n) nodes.now → result < n }
{
    let mut place = nodes.len() - 1;
    loop {
        match nodes[place] {
            Branch::Leaf(label) => return label,
            Branch::Split { signal, low, high } => {
                place = if bits >> signal & 1 == 1 { high } else { low } as usize;
            }
        }
    }
}
