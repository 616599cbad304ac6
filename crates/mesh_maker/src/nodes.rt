//! The nodes of the strip.

ghost use Rattle.std.specs.Prelude.{◌≡◌, ◌-◌, ◌≤◌, ◌∷◌, [], map, OnOk};
ghost use Rattle.std.specs.List.{range_with_len};
ghost use Rattle.strip_laws.specs.Strip.{node_at, root_node, square_node, edge_node, sink_node, strip_nodes};
ghost use Rattle.strip_laws.specs.declared.limits.TheConstants.{MOST_COLUMNS};
ghost use Rattle.mesh_maker.specs.Parts.{with_nodes};

use crate::points::{flat, halfway, middle};
use file_model::Node;
use grid_vertex::{Ball, NoMemory, Point};
use patch_file::FileParts;
use strip_laws::MOST_COLUMNS;

/// A node by its ball and its error.
fn node_at(centre: Point, radius: u32, error: u32) -> Node
    ensures { result ≡ node_at centre radius error }
{
    Node {
        ball: Ball { centre, radius },
        error,
    }
}

fn root_node(columns: u32) -> Node
    requires { columns ≤ MOST_COLUMNS }
    ensures { result ≡ root_node columns }
{
    node_at(flat(2 * columns, 2), 2 * columns + 5, 128)
}

fn square_node(column: u32) -> Node
    requires { column ≤ MOST_COLUMNS }
    ensures { result ≡ square_node column }
{
    let error = if column % 2 == 0 { 64 } else { 48 };
    node_at(middle(column), 7, error)
}

fn edge_node(edge: u32) -> Node
    requires { edge ≤ MOST_COLUMNS }
    ensures { result ≡ edge_node edge }
{
    node_at(halfway(edge), 5, 16)
}

fn sink_node() -> Node
    ensures { result ≡ sink_node }
{
    node_at(flat(0, 0), 0, 0)
}

/// Adds the nodes of the squares.
#[tactic(auto, using(crate::proofs::Grown::nodes_more))]
fn add_squares(parts: &mut FileParts, columns: u32) -> Result<(), NoMemory>
    requires { columns ≤ MOST_COLUMNS }
    ensures { OnOk result
        (parts.new ≡ with_nodes parts.old (map square_node (range_with_len 0 columns))) }
{
    for column in 0..columns {
        parts.add_node(square_node(column))?;
    }
    Ok(())
}

/// Adds the nodes of the edges between two squares.
#[tactic(auto, using(crate::proofs::Grown::edges_more))]
fn add_edges(parts: &mut FileParts, columns: u32) -> Result<(), NoMemory>
    requires some { 1 ≤ columns }
    requires most { columns ≤ MOST_COLUMNS }
    ensures { OnOk result
        (parts.new ≡ with_nodes parts.old (map edge_node (range_with_len 1 (columns - 1)))) }
{
    for edge in 1..columns {
        parts.add_node(edge_node(edge))?;
    }
    Ok(())
}

/// Adds all nodes of the strip.
pub(crate) fn add_nodes(parts: &mut FileParts, columns: u32) -> Result<(), NoMemory>
    requires some { 1 ≤ columns }
    requires most { columns ≤ MOST_COLUMNS }
    ensures { OnOk result (parts.new ≡ with_nodes parts.old (strip_nodes columns)) }
{
    parts.add_node(root_node(columns))?;
    add_squares(parts, columns)?;
    add_edges(parts, columns)?;
    parts.add_node(sink_node())
}
