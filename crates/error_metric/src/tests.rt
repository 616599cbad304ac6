//! The ranges of a view, and scores near and far.

use super::*;
use crate::scores::score_of_node;
use file_model::Node;
use grid_vertex::{Ball, Point};
use round_model::View;
use std::test::Fail;

fn view(x: i32, focal: u32, threshold: u32) -> Option<View> {
    View::new(Point { x, y: 0, z: 0 }, focal, threshold, 7)
}

fn least<W: Want>(want: &W) -> u64 {
    want.threshold()
}

#[test]
fn a_view_keeps_its_ranges(rt: HostRuntime) -> Result<(), Fail> {
    for (x, focal, threshold) in [
        (2_097_153, 1, 1),
        (-2_097_153, 1, 1),
        (0, 0, 1),
        (0, 65_537, 1),
        (0, 1, 0),
        (0, 1, 65_537),
    ] {
        assert!(rt; view(x, focal, threshold).is_none());
    }
    assert!(rt; view(-2_097_152, 1, 1).is_some());
    let Some(view) = view(2_097_152, 65_536, 65_536) else {
        return Err(Fail::from("no view at the bounds"));
    };
    assert_eq!(rt; (view.limit(), least(&view)), (7, 65_536));
    Ok(())
}

#[test]
fn scores_near_and_far(rt: HostRuntime) {
    let centre = Point { x: 2, y: 2, z: 0 };
    let inner = Node {
        ball: Ball { centre, radius: 4 },
        error: 10,
    };
    assert_eq!(rt;
        score_of_node(Point { x: 2, y: 2, z: 104 }, 100, &inner),
        10
    );
    assert_eq!(rt; score_of_node(centre, 100, &inner), 1_000);
    let rough = Node {
        ball: inner.ball,
        error: 1_048_576,
    };
    assert_eq!(rt; score_of_node(centre, 65_536, &rough), 68_719_476_736);
}
