//! Starts of chains over the square and the strip.

ghost use Rattle.std.specs.Prelude.{◌≡◌, length, IfOk};

use accepted_mesh::Mesh;
use cache_chain::{StartRefusal, TierChain};
use mesh_graph::MeshGraph;
use patch_file::read_index;
use sample_files::{square, strip};
use std::alloc::Global;
use std::test::Fail;
use view_outside::{MemoryStore, NamedFile};

/// A store of one file. An entry (o, n) makes the n-th read at offset o fail.
fn store_of(alloc: Global, bytes: &[u8], fails: &[(u64, u32)]) -> Result<MemoryStore, Fail>
    ensures { IfOk result (λ store. length store.files ≡ 1) }
{
    let file = NamedFile::new(String::from_str(alloc, "T")?, bytes.to_vec(alloc)?);
    Ok(MemoryStore::new(vec![in alloc; file]?, fails.to_vec(alloc)?, Vec::new(alloc)))
}

fn mesh_of(alloc: Global, bytes: &[u8]) -> Result<Mesh, Fail> {
    let mut store = store_of(alloc, bytes, &[])?;
    let index = read_index(alloc, &mut store, 0)?;
    let _patches = index.patch_count();
    let graph = MeshGraph::of(alloc, index.nodes(), index.fields())?;
    match graph.verdict() {
        Ok(root) => Ok(Mesh::with(index, graph, root, 0)),
        Err(_) => Err(Fail::from("no root")),
    }
}

#[test]
fn a_budget_below_the_base_is_refused(rt: HostRuntime) -> Result<(), Fail> {
    let alloc = rt.alloc();
    let mesh = mesh_of(alloc, &square())?;
    let mut store = store_of(alloc, &square(), &[])?;
    match TierChain::start(alloc, &mesh, &[59], &mut store, 0) {
        Ok(_) => Err(Fail::from("a start")),
        Err(refusal) => {
            let wanted = StartRefusal::Budget {
                need: 60,
                given: 59,
            };
            assert_eq!(&rt; refusal, wanted);
            Ok(())
        }
    }
}

// The strip has two base patches; the read of the second body, at offset 260, fails.
#[test]
fn a_fault_in_the_second_base_body_stops_the_start(rt: HostRuntime) -> Result<(), Fail> {
    let alloc = rt.alloc();
    let mesh = mesh_of(alloc, &strip())?;
    let mut store = store_of(alloc, &strip(), &[(260, 1)])?;
    match TierChain::start(alloc, &mesh, &[240], &mut store, 0) {
        Ok(_) => Err(Fail::from("a start")),
        Err(refusal) => {
            assert_eq!(&rt; refusal, StartRefusal::ReadFault);
            Ok(())
        }
    }
}

mod rows;
mod scenes;
