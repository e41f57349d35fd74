//! Trees of digests.

ghost use Rattle.std.specs.Prelude.{◌≡◌, ◌+◌, ◌*◌, ◌^◌, ◌<◌, ◌≤◌, ◌↔◌, ◌++◌, ◌∷◌, [], ℕ, List, length, take, set};
ghost use Rattle.std.specs.Prelude.{IfOk, OnOk, IfSome, IsSome, All};
ghost use Rattle.sha2.specs.Sha256.{sha256};
ghost use Rattle.partition_tree.specs.Digests.{IsTreeSize, IsNode, IsDigest, IsRoot, digest_at, node_at, node_over, digests};
ghost use Rattle.partition_tree.specs.Digests.{updated, most_levels};
ghost use Rattle.partition_tree.specs.Levels.{IsTree, from, nodes_upto, start, width};

use crate::digests::node_text;
use crate::steps::{Steps, digest_of};
use nfs2_types::{Blob, Digest, NoMemory};
use sha2::{Digest as _, Sha256};
use std::alloc::Global;
use std::marker::Model;
use std::sync::ledger::Ledger;

/// A text that is put in place of that of an index.
#[derive(Debug, Drop)]
pub struct Changed {
    pub index: u32,
    pub text: Blob,
}

/// The digests of some texts, and of the nodes over them. Contracts see the digests of the texts, from which all others
/// follow.
#[derive(Drop)]
pub struct Tree {
    leaves: usize,
    levels: u32,
    // the digests of the texts, behind them those of each level in turn, the root's last
    kept: Vec<Digest>,
}

impl Model for Tree {
    ghost use Rattle.std.specs.Prelude.{List, ℕ, ◌≡◌, ◌^◌, take};
    ghost use Rattle.partition_tree.specs.Levels.{IsTree};

    ghost Value = { List (List ℕ) };

    ghost view = { λ t. take t.leaves t.kept.items };

    ghost invariant = { λ t. (t.leaves ≡ 16 ^ t.levels) × IsTree t.levels t.kept.items };
}

/// How many levels of nodes stand over so many texts.
fn levels_over(n: usize) -> u32
    requires { IsTreeSize n }
    ensures size { n ≡ 16 ^ result }
    ensures some { 1 ≤ result }
    ensures few { result ≤ most_levels }
{
    if n == 16 {
        1
    } else if n == 256 {
        2
    } else {
        3
    }
}

/// The digest of each text.
fn leaf_digests(alloc: Global, texts: &[Blob]) -> Result<Vec<Digest>, NoMemory>
    ensures { IfOk result (λ all. all.items ≡ digests texts.now) }
{
    let mut all = Vec::new(alloc);
    for text in texts {
        all.push(Sha256::digest(text.as_slice()))
            .map_err(|_| NoMemory)?;
    }
    Ok(all)
}

/// The text of a node, over the digests of the level below, which begin at this place.
fn text_over(kept: &[Digest], below: usize, level: u32, number: u32) -> [u8; 524]
    requires { below + 16 * number + 16 ≤ length kept.now }
    ensures { result ≡ node_over (from kept.now below) level number }
{
    let first = below + 16 * number as usize;
    node_text(level, number, &kept[first..first + 16])
}

/// Appends a digest.
fn push(kept: &mut Vec<Digest>, digest: Digest) -> Result<(), NoMemory>
    ensures { OnOk result (kept.new.items ≡ kept.old.items ++ digest ∷ []) }
{
    match kept.push(digest) {
        Ok(()) => Ok(()),
        Err(_) => Err(NoMemory),
    }
}

/// Appends the digests of a level of so many nodes. The level below begins at this place, and ends where the list does.
fn push_level(kept: &mut Vec<Digest>, below: usize, level: u32, width: u32) -> Result<(), NoMemory>
    requires { below + 16 * width ≤ length kept.old.items }
    ensures { OnOk result (kept.new.items ≡ kept.old.items ++ nodes_upto (from kept.old.items below) level width) }
{
    for number in 0..width {
        let text = text_over(kept, below, level, number);
        push(kept, Sha256::digest(&text))?;
    }
    Ok(())
}

/// Where a level begins, and how many digests it has.
fn place_of(leaves: usize, levels: u32, level: u32) -> (usize, usize)
    requires leaves { leaves ≡ 16 ^ levels }
    requires few { levels ≤ most_levels }
    requires level { level ≤ levels }
    ensures start { result.0 ≡ start levels level }
    ensures width { result.1 ≡ width levels level }
{
    let mut at = 0;
    let mut many = leaves;
    for _below in 0..level {
        at += many;
        many /= 16;
    }
    (at, many)
}

/// Puts a text in place of that of an index: its digest is changed, and those on the way from there to the root.
fn set_path<L: Ledger>(
    kept: &mut Vec<Digest>,
    leaves: usize,
    levels: u32,
    changed: &Changed,
    steps: &mut Steps<L>,
)
    requires tree { IsTree levels kept.old.items }
    requires leaves { leaves ≡ 16 ^ levels }
    requires index { changed.now.index < leaves }
    ensures tree { IsTree levels kept.new.items }
    ensures set { take leaves kept.new.items ≡
        set (take leaves kept.old.items) changed.now.index (sha256 changed.now.text) }
    ensures cost { steps.new ≡ steps.old + (levels + 1) }
{
    kept[changed.index as usize] = digest_of(changed.text.as_slice(), steps);
    let mut number = changed.index;
    let mut below = 0;
    let mut many = leaves;
    for level in 0..levels {
        number /= 16;
        let text = text_over(kept, below, level + 1, number);
        let digest = digest_of(&text, steps);
        below += many;
        kept[below + number as usize] = digest;
        many /= 16;
    }
}

impl Tree {
    /// The tree over these texts.
    pub fn build(alloc: Global, texts: &[Blob]) -> Result<Tree, NoMemory>
        requires { IsTreeSize (length texts.now) }
        ensures { IfOk result (λ tree. tree ≡ digests texts.now) }
    {
        let leaves = texts.len();
        let levels = levels_over(leaves);
        let mut kept = leaf_digests(alloc, texts)?;
        let mut below = 0;
        let mut many = leaves;
        for level in 0..levels {
            let next = kept.len();
            many /= 16;
            push_level(&mut kept, below, level + 1, many as u32)?;
            below = next;
        }
        Ok(Tree {
            leaves,
            levels,
            kept,
        })
    }

    /// A copy of the digests.
    pub fn copy(&self, alloc: Global) -> Result<Tree, NoMemory>
        ensures { IfOk result (λ tree. tree ≡ self.now) }
    {
        let kept = Vec::from_slice(alloc, &self.kept).map_err(|_| NoMemory)?;
        Ok(Tree {
            leaves: self.leaves,
            levels: self.levels,
            kept,
        })
    }

    /// How many texts it stands over: 16, 256 or 4,096. It takes no memory.
    pub fn len(&self) -> usize
        ensures size { result ≡ length self.now }
        ensures tree { IsTreeSize result }
    {
        self.leaves
    }

    /// How many levels of nodes it has. It takes no memory.
    pub fn levels(&self) -> u32
        ensures size { length self.now ≡ 16 ^ result }
        ensures few { result ≤ most_levels }
    {
        self.levels
    }

    /// The digest of a level with a number: at level 0 that of a text, above it that of a node. It takes no memory.
    pub fn digest(&self, level: u32, number: u32) -> Digest
        requires { IsDigest (length self.now) level number }
        ensures { result ≡ digest_at self.now level number }
    {
        let (below, _) = place_of(self.leaves, self.levels, level);
        self.kept[below + number as usize]
    }

    /// The digest of the top node. It takes no memory.
    pub fn root(&self) -> Digest
        ensures { IsRoot self.now result }
    {
        self.kept[self.kept.len() - 1]
    }

    /// The text of a node, or `None` at level 0 and outside the tree. It takes no memory.
    pub fn node_text(&self, level: u32, number: u32) -> Option<[u8; 524]>
        ensures text { IfSome result (λ text. text ≡ node_at self.now level number) }
        ensures some { IsSome result ↔ IsNode (length self.now) level number }
    {
        if level == 0 || self.levels < level {
            return None;
        }
        let (below, _) = place_of(self.leaves, self.levels, level - 1);
        let (_, many) = place_of(self.leaves, self.levels, level);
        if many <= number as usize {
            return None;
        }
        Some(text_over(&self.kept, below, level, number))
    }

    /// Puts texts in place of those of their indexes, in their order. Each costs at most a digest for itself and one
    /// for each level. It takes no memory.
    pub fn update<L: Ledger>(&mut self, changed: &[Changed], steps: &mut Steps<L>)
        requires { All (λ c. c.index < length self.old) changed.now }
        ensures digests { self.new ≡ updated changed.now self.old }
        ensures cost { (levels : ℕ) → length self.old ≡ 16 ^ levels →
            steps.new ≤ steps.old + length changed.now * (levels + 1) }
    {
        for c in changed {
            self.put(c, steps);
        }
    }

    /// Puts a text in place of that of its index.
    fn put<L: Ledger>(&mut self, changed: &Changed, steps: &mut Steps<L>)
        requires { changed.now.index < length self.old }
        ensures digests { self.new ≡ set self.old changed.now.index (sha256 changed.now.text) }
        ensures cost { (levels : ℕ) → length self.old ≡ 16 ^ levels → steps.new ≡ steps.old + (levels + 1) }
    {
        set_path(&mut self.kept, self.leaves, self.levels, changed, steps);
    }
}
