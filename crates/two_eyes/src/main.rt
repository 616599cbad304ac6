//! A viewer on the crates: two eyes look at one file, and then one of them moves.
//!
//! `docs/USING_CRATES.md` walks through it.
#![tactic(auto)]

ghost use Rattle.std.specs.Prelude.{◌≡◌, ◌+◌, ◌^◌, ◌<◌, ◌≤◌, ℕ, None, Some, OnOk};
ghost use Rattle.session_model.specs.Told.{SessionTold, just_opened, told_view, one_frame_more};
ghost use Rattle.session_seats.specs.Seats.{at_seat, seat_told};
ghost use Rattle.token_words.specs.Changes.{SetAt};
ghost use Rattle.token_words.specs.Sessions.{IsSession};
ghost use Rattle.two_eyes.specs.Looking.{Looks};
ghost use Rattle.view_outside.specs.Files.{HasFile};

use dag_check::{CheckRefusal, Mesh, check};
use grid_vertex::{NoMemory, Point};
use patch_file::read_index;
use round_model::View;
use std::alloc::Global;
use std::io;
use view_machine::Machine;
use view_outside::{FolderStore, Store};

/// Each of two tiers has room for all patches of the file, in bytes.
const BUDGETS: [u64; 2] = [480, 480];

// Opens the session with this view.
fn join<S: Store>(
    alloc: Global,
    machine: &mut Machine<S>,
    session: u32,
    view: View,
) -> Result<(), NoMemory>
    requires number { IsSession session }
    requires closed { at_seat machine.old.seats.sessions session ≡ None }
    requires few { machine.old.board.version < 2 ^ 62 }
    ensures joined { OnOk result
        (SetAt (seat_told machine.old.seats.sessions) session (Some (told_view just_opened view))
        (seat_told machine.new.seats.sessions)) }
    ensures version { machine.new.board.version ≤ machine.old.board.version + 1 }
{
    machine.open_session(alloc, session)?;
    machine.set_view(session, view)
}

// Fetches all that is wished, and counts the triangles of the session's next frame.
fn look<S: Store>(alloc: Global, machine: &mut Machine<S>, session: u32) -> Result<u64, NoMemory>
    requires looks { Looks machine.old.seats.sessions session }
    ensures told { OnOk result
        ((told : SessionTold) → seat_told machine.old.seats.sessions session ≡ Some told
        → SetAt (seat_told machine.old.seats.sessions) session (Some (one_frame_more told))
        (seat_told machine.new.seats.sessions)) }
    ensures board { machine.new.board ≡ machine.old.board }
{
    let mut log = Vec::new(alloc);
    machine.settle_tiers(alloc, &mut log)?;
    let frame = machine.show(alloc, session)?;
    Ok(frame.triangles())
}

// The triangles of the frames of two eyes, and of the first one's when it has moved.
fn watch<S: Store>(
    alloc: Global,
    machine: &mut Machine<S>,
    near: View,
    far: View,
) -> Result<[u64; 3], NoMemory>
    requires closed { (i : ℕ) → at_seat machine.old.seats.sessions i ≡ None }
    requires few { machine.old.board.version ≡ 0 }
{
    join(alloc, machine, 1, near)?;
    join(alloc, machine, 2, far)?;
    let first = look(alloc, machine, 1)?;
    let second = look(alloc, machine, 2)?;
    machine.set_view(1, far)?;
    let moved = look(alloc, machine, 1)?;
    Ok([first, second, moved])
}

// A view from the strip's edge, at this place along it.
fn view_from(x: i32) -> Option<View> {
    View::new(Point { x, y: 2, z: 4 }, 100, 40, 100)
}

// The file's mesh, if it is accepted.
fn mesh_of<S: Store>(alloc: Global, store: &mut S, file: u32) -> Result<Mesh, CheckRefusal>
    requires { HasFile (S.files store.old) file }
    ensures { S.files store.new ≡ S.files store.old }
{
    let index = read_index(alloc, store, file)?;
    check(alloc, index, store, file)
}

// The same as `watch`, over the file of this number. None where it isn't accepted, or memory is short.
fn watch_file<S: Store>(alloc: Global, store: &mut S, file: u32) -> Option<[u64; 3]>
    requires { HasFile (S.files store.old) file }
{
    let (Some(near), Some(far)) = (view_from(2), view_from(90)) else {
        return None;
    };
    let Ok(mesh) = mesh_of(alloc, store, file) else {
        return None;
    };
    match Machine::start(alloc, &mesh, &BUDGETS, store, file) {
        Ok(mut machine) => watch(alloc, &mut machine, near, far).ok(),
        Err(_) => None,
    }
}

// What was seen of the file of this name. None also where there is no such file.
fn seen<S: Store>(alloc: Global, store: &mut S, name: &str) -> Option<[u64; 3]> {
    match store.find(name) {
        Ok(file) => watch_file(alloc, store, file),
        Err(_) => None,
    }
}

// Tells what each eye saw, each in turn.
fn tell(rt: &HostRuntime, seen: [u64; 3]) -> io::Result<()> {
    println!(rt; "eye 1 sees {} triangles, eye 2 sees {}", seen[0], seen[1])?;
    println!(rt; "eye 1 moves, and sees {}", seen[2])
}

fn main(rt: HostRuntime) -> io::Result<()> {
    let mut store = FolderStore::new(&rt, rt.alloc())?;
    match seen(rt.alloc(), &mut store, "strip.bmtg") {
        Some(triangles) => tell(&rt, triangles),
        None => println!(rt; "the file can't be watched"),
    }
}
