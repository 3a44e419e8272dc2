// One walk for every order and every question. It keeps the keys of the first so many claims, in order, in a room of its own.
ghost use Rattle.std.specs.Prelude.{◌≡◌, ◌<◌};
ghost use Rattle.paper.specs.Tree.{field_at, side_claim};
ghost use Rattle.tree.specs.BuiltNodes.{Inside, Holds};
ghost use Rattle.walk_keep.specs.Kept.{Walked};
ghost use Rattle.walk.specs.Walking.{Bounded, dist_by, apart_by, ClaimsOf, Visits, link_at, way_down, WayAsk, InOrBelow, NodeAsk, SideAsk};

use crate::measuring::from_both;
use paper::limits::MOST_COORDINATES;
use tree::nodes::field;
use walk_keep::asked::Asked;
use walk_keep::first_keys::KEYS;
use walk_keep::keys::{half, key, rank};

// The ranks of a node's two claims: of its one claim twice, where it has no other.
#[derive(Clone, Copy)]
pub struct Visited {
    pub left: u64,
    pub right: u64,
}

// What a walk reads, at every level: nodes and coordinates of the table, the probe, and the question. A level hands on one reference.
#[derive(Drop)]
pub struct Walk<'a> {
    pub nodes: &'a [u64],
    pub coordinates: &'a [i32],
    pub probe: &'a [i32; MOST_COORDINATES],
    pub ask: Asked,
}

// The numbers of node m's two claims: of its one claim twice, where it has no other.
fn claims(nodes: &[u64], m: usize) -> (u64, u64)
    requires { Inside nodes.now m × (0 < field_at nodes.now m 0) }
    ensures { ClaimsOf nodes.now m result.0 result.1 }
{
    let left = field(nodes, m, 0) - 1;
    (left, field(nodes, m, 1).checked_sub(1).unwrap_or(left))
}

// The node below side s of node m.
#[tactic(auto, unfolding(crate::specs::Walking::link_at))]
fn link(nodes: &[u64], m: usize, s: usize) -> Option<usize>
    requires { (s < 2) × Inside nodes.now m }
    ensures { result ≡ link_at nodes.now m s }
{
    match field(nodes, m, 4 + s) {
        0 => None,
        below => Some(below as usize - 1),
    }
}

impl Walk<'_> {
    // The steps of the two claims of node m. Both are measured before either is kept: neither distance waits for what the other one does. A
    // claim that has no other beside it is kept twice, which changes nothing and saves a branch.
    fn visit(&self, m: usize, room: &mut [u64; KEYS]) -> Visited
        requires { NodeAsk self.now.nodes.now self.now.coordinates.now self.now.ask m }
        ensures { Visits self.now.ask self.now.coordinates.now self.now.probe.now self.now.nodes.now m room.old room.new result.left result.right }
    {
        let (k, j) = claims(self.nodes, m);
        let d = self.ask.d;
        let x = from_both(
            self.ask.measure,
            d,
            self.coordinates,
            k as usize * d,
            j as usize * d,
            self.probe,
        );
        let left = rank(self.ask.order, x.left);
        let right = rank(self.ask.order, x.right);
        self.ask.sought.keep(room, k, key(left, k));
        self.ask.sought.keep(room, j, key(right, j));
        Visited { left, right }
    }

    // [4.11] The node to go to below side s of node m, or none where nothing below it can change the answer. The side's claim is at
    // rank x, no claim below is before rank `least`, and all are numbered above both claims of the node. One test of what is still wanted, so that
    // little is guessed wrong.
    fn way_down(&self, m: usize, s: usize, x: u64, least: u64, room: &[u64; KEYS]) -> Option<usize>
        requires { WayAsk self.now.nodes.now m s x least }
        ensures { result ≡ way_down self.now.nodes.now self.now.ask m s x least room.now }
    {
        let far = field(self.nodes, m, 2 + s);
        if x < self.ask.first.saturating_sub(far) {
            return None;
        }
        let bound = x.saturating_sub(far).max(least);
        if self.ask.sought.wanted(room) <= key(bound, field(self.nodes, m, 1)) {
            return None;
        }
        link(self.nodes, m, s)
    }

    // [4.10] The claims on and below the two sides of node m, the side that ranks first before the other. A branch chooses the side: a choice by
    // arithmetic would wait for both distances.
    #[cycle(node_side)]
    pub fn node(&self, m: usize, room: &mut [u64; KEYS])
        requires { NodeAsk self.now.nodes.now self.now.coordinates.now self.now.ask m }
        ensures walked { Walked self.now.ask (dist_by self.now.ask self.now.coordinates.now self.now.probe.now) (Holds self.now.nodes.now (apart_by self.now.ask self.now.coordinates.now) m) room.old room.new }
        ensures bounded { Bounded self.now.ask.measure self.now.ask.d self.now.coordinates.now self.now.probe.now (side_claim self.now.nodes.now m 0) }
    {
        let Visited { left: x, right: y } = self.visit(m, room);
        if field(self.nodes, m, 1) == 0 {
            return;
        }
        if y < x {
            let way = self.way_down(m, 1, y, 0, room);
            self.side(way, room);
            let way = self.way_down(m, 0, x, half(self.ask.order, x - y, 0), room);
            self.side(way, room);
            return;
        }
        let way = self.way_down(m, 0, x, 0, room);
        self.side(way, room);
        let way = self.way_down(m, 1, y, half(self.ask.order, y - x, 1), room);
        self.side(way, room);
    }

    // [4.10] The claims below a side, where `way` is the node below it, or none where none of them can change the answer. The tests are made
    // before the call: so short a function is compiled into `node`, and a level of the tree takes the stack of one call, not of two.
    #[cycle(node_side)]
    fn side(&self, way: Option<usize>, room: &mut [u64; KEYS])
        requires { SideAsk self.now.nodes.now self.now.coordinates.now self.now.ask way }
        ensures { Walked self.now.ask (dist_by self.now.ask self.now.coordinates.now self.now.probe.now) (InOrBelow self.now.nodes.now (apart_by self.now.ask self.now.coordinates.now) way) room.old room.new }
    {
        if let Some(m) = way {
            self.node(m, room);
        }
    }
}
