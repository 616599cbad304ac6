//! Turns over the strip, by lists of wishes: two patches that come at once, and a fetch that is lost.

ghost use Rattle.std.specs.Prelude.{◌≡◌, length, slice_index, IfOk};
ghost use Rattle.tier_model.specs.Tiers.{sizes_of, IsWidth};

use super::*;
use grid_vertex::NoMemory;
use patch_file::{Index, read_index};
use sample_files::strip;
use std::alloc::Global;
use std::process::Abort;
use std::test::Fail;
use tier_budget::Wishes;
use token_words::NoWords;
use view_outside::{MemoryStore, NamedFile};

/// The wish of each patch of the strip.
#[derive(Drop)]
struct Listed {
    wishes: [u64; 7],
    version: u64,
}

impl Wishes for Listed {
    ghost patches = { λ listed. length listed.wishes };

    ghost wish_of = { λ listed patch. slice_index listed.wishes patch };

    ghost version_of = { λ listed. listed.version };

    fn wish(&self, patch: u32) -> u64 {
        self.wishes[patch as usize]
    }

    fn version(&self) -> u64 {
        self.version
    }
}

/// The strip in a store.
fn strip_store(alloc: Global) -> Result<MemoryStore, Fail>
    ensures { IfOk result (λ store. length store.files ≡ 1) }
{
    let file = NamedFile::new(String::from_str(alloc, "T")?, strip().to_vec(alloc)?);
    Ok(MemoryStore::new(vec![in alloc; file]?, Vec::new(alloc), Vec::new(alloc)))
}

/// A tier of the index that holds nothing.
#[tactic(auto, unfolding(tier_model::specs::Changes::fresh))]
fn new_tier(alloc: Global, index: &Index, budget: u64, width: u32) -> Result<Tier, NoMemory>
    requires { IsWidth width }
    ensures { IfOk result (λ tier. sizes_of index.now ≡ tier.state.sizes) }
{
    Tier::with_width(alloc, index, budget, width)
}

/// The tier's turns, with new wishes, answer these, one after the other.
fn expect_turns<B: Supply>(
    rt: &impl Abort,
    alloc: Global,
    index: &Index,
    tier: &mut Tier,
    below: &mut B,
    wishes: &Listed,
    answers: &[Turn],
) -> Result<(), Fail>
    requires index { sizes_of index.now ≡ tier.old.state.sizes }
    requires supply { B.sizes (B.place below.old) ≡ tier.old.state.sizes }
    ensures same { IfOk result (λ _. tier.new.state.sizes ≡ tier.old.state.sizes) }
    ensures supply { IfOk result (λ _. B.place below.new ≡ B.place below.old) }
{
    if index.patch_count() != 7 {
        return Err(Fail::from("another strip"));
    }
    if tier.version() == wishes.version {
        return Err(Fail::from("no new wishes"));
    }
    for answer in answers {
        let made = turn(alloc, index, tier, below, wishes, &mut NoWords)?;
        assert_eq!(rt; made, *answer);
    }
    Ok(())
}

#[test]
fn two_patches_come_at_once(rt: HostRuntime) -> Result<(), Fail> {
    let alloc = rt.alloc();
    let mut store = strip_store(alloc)?;
    let index = read_index(alloc, &mut store, 0)?;
    let wishes = Listed {
        wishes: [0, 0, 9, 9, 0, 0, 0],
        version: 1,
    };
    let mut tier = new_tier(alloc, &index, 120, 2)?;
    let mut below = StoreSupply {
        index: &index,
        store: &mut store,
        file: 0,
    };
    let answers = [
        Turn::Reserve(2),
        Turn::Reserve(3),
        Turn::Got(2),
        Turn::Got(3),
        Turn::Commit(2),
        Turn::Commit(3),
        Turn::Idle,
    ];
    expect_turns(&rt, alloc, &index, &mut tier, &mut below, &wishes, &answers)?;
    assert_eq!(rt; (tier.load(), tier.held_count()), (120, 2));
    Ok(())
}

/// The upper tier is to fetch patch 4, which the lower one gives up for patches that are wished more.
fn loses_a_fetch<B: Supply>(
    rt: &impl Abort,
    alloc: Global,
    index: &Index,
    upper: &mut Tier,
    lower: &mut Tier,
    below: &mut B,
) -> Result<(), Fail>
    requires upper { sizes_of index.now ≡ upper.old.state.sizes }
    requires lower { sizes_of index.now ≡ lower.old.state.sizes }
    requires supply { B.sizes (B.place below.old) ≡ lower.old.state.sizes }
{
    let first = Listed {
        wishes: [0, 0, 0, 0, 5, 5, 0],
        version: 1,
    };
    let second = Listed {
        wishes: [0, 0, 9, 9, 5, 5, 0],
        version: 2,
    };
    let comes = [Turn::Reserve(4), Turn::Got(4), Turn::Commit(4)];
    expect_turns(rt, alloc, index, lower, below, &first, &comes)?;
    let mut held = TierSupply { tier: lower };
    expect_turns(
        rt,
        alloc,
        index,
        upper,
        &mut held,
        &first,
        &[Turn::Reserve(4)],
    )?;
    expect_turns(rt, alloc, index, lower, below, &second, &[Turn::Evict(4)])?;
    let mut left = TierSupply { tier: lower };
    let loses = [Turn::Lost(4), Turn::Idle];
    expect_turns(rt, alloc, index, upper, &mut left, &second, &loses)
}

// The tier below gives up the patch that is to come, for one that is wished more.
#[test]
fn a_fetch_is_lost(rt: HostRuntime) -> Result<(), Fail> {
    let alloc = rt.alloc();
    let mut store = strip_store(alloc)?;
    let index = read_index(alloc, &mut store, 0)?;
    let mut upper = new_tier(alloc, &index, 120, 1)?;
    let mut lower = new_tier(alloc, &index, 60, 1)?;
    let mut below = StoreSupply {
        index: &index,
        store: &mut store,
        file: 0,
    };
    loses_a_fetch(&rt, alloc, &index, &mut upper, &mut lower, &mut below)
}
