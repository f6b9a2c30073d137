//! The findings of a volume.
ghost use Rattle.std.specs.Prelude.{◌≡◌, ◌<◌, ◌≤◌, ℕ, [], true, false, IfOk, length, slice_index_or, vec_len, vec_capacity};
ghost use Rattle.volume.specs.Findings.{Ascends, first_thousand, is_before as before_said, is_same as same_said, with_finding};

use crate::load::Finding;
use std::alloc::{AllocError, Global};
use std::marker::Model;

const MAX_FINDINGS: usize = 1000;

/// The first 1,000 findings of a volume, ascending by number and then by block. After `reserve` it takes no memory.
#[derive(Drop)]
pub struct Findings {
    found: Vec<Finding>,
}

impl Model for Findings {
    ghost use Rattle.std.specs.Prelude.{◌≤◌, List, length, vec_capacity};
    ghost use Rattle.volume.specs.declared.load.Finding.{Finding};
    ghost use Rattle.volume.specs.Findings.{Ascends};

    ghost Value = { List Finding };

    ghost view = { λ f. f.found.items };

    ghost invariant = { λ f. (1001 ≤ vec_capacity f.found) × (length f.found.items ≤ 1000) × Ascends f.found.items };
}

impl Findings {
    /// Room for 1,000 findings.
    pub fn reserve(alloc: Global) -> Result<Findings, AllocError>
        ensures { IfOk result (λ findings. findings ≡ []) }
    {
        Ok(Findings {
            found: Vec::with_capacity(alloc, MAX_FINDINGS + 1)?,
        })
    }

    /// The findings, ascending, each once, at most 1,000.
    pub fn items(&self) -> &[Finding]
        ensures value { result.now ≡ self.now }
        ensures ascending { Ascends self.now }
        ensures few { length self.now ≤ 1000 }
    {
        &self.found
    }

    /// Takes all findings away; the room stays.
    pub fn clear(&mut self)
        ensures { self.new ≡ [] }
    {
        self.found.clear();
    }

    /// Adds a finding at its place, where it is not there. Of more than 1,000 the last one goes.
    pub fn add(&mut self, finding: Finding)
        ensures { self.new ≡ first_thousand (with_finding finding self.old) }
    {
        add_to(&mut self.found, finding);
    }
}

fn is_before(finding: &Finding, other: &Finding) -> bool
    ensures { result ≡ before_said finding.now other.now }
{
    finding.number < other.number || (finding.number == other.number && finding.block < other.block)
}

fn is_same(finding: &Finding, other: &Finding) -> bool
    ensures { result ≡ same_said finding.now other.now }
{
    finding.number == other.number && finding.block == other.block
}

// The first place whose finding does not come before this one.
fn place_of(found: &[Finding], finding: &Finding) -> usize
    ensures within { result ≤ length found.now }
    ensures before { (k : ℕ) → k < result → before_said (slice_index_or found.now k finding.now) finding.now ≡ true }
    ensures here { result < length found.now → before_said (slice_index_or found.now result finding.now) finding.now ≡ false }
{
    for i in 0..found.len() {
        if !is_before(&found[i], finding) {
            return i;
        }
    }
    found.len()
}

fn add_to(found: &mut Vec<Finding>, finding: Finding)
    requires room { vec_len found.old < vec_capacity found.old }
    requires few { length found.old.items ≤ 1000 }
    ensures items { found.new.items ≡ first_thousand (with_finding finding found.old.items) }
    ensures capacity { vec_capacity found.old ≤ vec_capacity found.new }
{
    let i = place_of(found, &finding);
    if i < found.len() && is_same(&found[i], &finding) {
        return;
    }
    let _ = found.insert(i, finding);
    found.truncate(MAX_FINDINGS);
}
