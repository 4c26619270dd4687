// A table's bytes by their fields: the counts of a table, accessors that every reader goes by, and the edges into each node as lists.
// Assumes no more than its `requires`: functions that read fields ask that the bytes span the counts (`Spans`).
#![tactic(auto)]

ghost use Rattle.std.specs.Prelude.{◌≡◌, ◌||◌, List, ℕ, ◌+◌, ◌≤◌, ◌<◌, length};
ghost use Rattle.paper.specs.Lists.{at, within};
ghost use Rattle.paper.specs.Table.{header, nodes, edges, node_at, edge_at, kind, owner, lower, upper, edge_kind, source, target, guarded};
ghost use Rattle.paper.specs.Table.{is_pin, is_buffer, is_outgoing, is_object_node, is_control_node};
ghost use Rattle.table.specs.Reading.{Spans};
ghost use Rattle.table.specs.Incoming.{Incoming, Listable};

// The counts of a table, whose bytes stand beside it.
#[derive(Clone, Copy)]
pub struct Table {
    pub nodes: usize,
    pub edges: usize,
}

// How many nodes and edges a table may have.
#[derive(Clone, Copy)]
pub struct Limits {
    pub nodes: usize,
    pub edges: usize,
}

impl Table {
    // The paper's limits, which are what arrays hold.
    pub const MOST_NODES: usize = 120;

    pub const MOST_EDGES: usize = 200;

    // Bytes of the longest marking.
    pub const LONGEST_MARKING: usize = 8192;

    pub const MOST_UPPER: usize = 16;

    pub const CHAIN_TOO_LONG: usize = 16;

    pub const LONGEST_PATH: usize = 16;

    // Bytes before the nodes, of a node and of an edge.
    pub const HEADER: usize = 5;

    pub const NODE: usize = 4;

    pub const EDGE: usize = 4;

    pub const VERSION: usize = 1;

    // The owner of what is no pin.
    pub const NO_OWNER: usize = 255;

    // What ends a list of edges.
    pub const NO_EDGE: u8 = 255;

    // The kind of an object edge; that of a control edge is 0.
    pub const OBJECT: usize = 1;

    // Kinds of node.
    pub const INITIAL: usize = 1;

    pub const ACTION: usize = 2;

    pub const INPUT: usize = 3;

    pub const OUTPUT: usize = 4;

    pub const BUFFER: usize = 5;

    pub const INCOMING: usize = 6;

    pub const OUTGOING: usize = 7;

    pub const DECISION: usize = 8;

    pub const MERGE: usize = 9;

    pub const FORK: usize = 10;

    pub const JOIN: usize = 11;

    pub const ACTIVITY_FINAL: usize = 13;

    // Where node i starts.
    pub fn node_at(i: usize) -> usize
        requires { i ≤ 255 }
        ensures { (t : List ℕ) → result ≡ node_at t i }
    {
        Self::HEADER + Self::NODE * i
    }

    // Where edge j starts.
    pub fn edge_at(self, j: usize) -> usize
        requires { (self.nodes ≤ 255) × (j ≤ 255) }
        ensures { (t : List ℕ) → self.nodes ≡ nodes t → result ≡ edge_at t j }
    {
        Self::HEADER + Self::NODE * self.nodes + Self::EDGE * j
    }

    // Byte f of node i, as a number.
    fn node_field(self, s: &[u8], i: usize, f: usize) -> usize
        requires { Spans s.now self × (i < self.nodes) × (f < 4) }
        ensures { (result ≡ at s.now (node_at s.now i + f)) × (result < 256) }
    {
        wire::wide(s[Self::node_at(i) + f])
    }

    // Byte f of edge j, as a number.
    fn edge_field(self, s: &[u8], j: usize, f: usize) -> usize
        requires { Spans s.now self × (j < self.edges) × (f < 4) }
        ensures { (result ≡ at s.now (edge_at s.now j + f)) × (result < 256) }
    {
        wire::wide(s[self.edge_at(j) + f])
    }

    // The fields of node i, each as a number.
    #[tactic(auto, unfolding(paper::specs::Table::kind))]
    pub fn kind(self, s: &[u8], i: usize) -> usize
        requires { Spans s.now self × (i < self.nodes) }
        ensures { (result ≡ kind s.now i) × (result < 256) }
    {
        self.node_field(s, i, 0)
    }

    #[tactic(auto, unfolding(paper::specs::Table::owner))]
    pub fn owner(self, s: &[u8], i: usize) -> usize
        requires { Spans s.now self × (i < self.nodes) }
        ensures { (result ≡ owner s.now i) × (result < 256) }
    {
        self.node_field(s, i, 1)
    }

    #[tactic(auto, unfolding(paper::specs::Table::lower))]
    pub fn lower(self, s: &[u8], i: usize) -> usize
        requires { Spans s.now self × (i < self.nodes) }
        ensures { (result ≡ lower s.now i) × (result < 256) }
    {
        self.node_field(s, i, 2)
    }

    #[tactic(auto, unfolding(paper::specs::Table::upper))]
    pub fn upper(self, s: &[u8], i: usize) -> usize
        requires { Spans s.now self × (i < self.nodes) }
        ensures { (result ≡ upper s.now i) × (result < 256) }
    {
        self.node_field(s, i, 3)
    }

    // The fields of edge j, each as a number.
    #[tactic(auto, unfolding(paper::specs::Table::edge_kind))]
    pub fn edge_kind(self, s: &[u8], j: usize) -> usize
        requires { Spans s.now self × (j < self.edges) }
        ensures { (result ≡ edge_kind s.now j) × (result < 256) }
    {
        self.edge_field(s, j, 0)
    }

    #[tactic(auto, unfolding(paper::specs::Table::source))]
    pub fn source(self, s: &[u8], j: usize) -> usize
        requires { Spans s.now self × (j < self.edges) }
        ensures { (result ≡ source s.now j) × (result < 256) }
    {
        self.edge_field(s, j, 1)
    }

    #[tactic(auto, unfolding(paper::specs::Table::target))]
    pub fn target(self, s: &[u8], j: usize) -> usize
        requires { Spans s.now self × (j < self.edges) }
        ensures { (result ≡ target s.now j) × (result < 256) }
    {
        self.edge_field(s, j, 2)
    }

    #[tactic(auto, unfolding(paper::specs::Table::guarded))]
    pub fn guarded(self, s: &[u8], j: usize) -> usize
        requires { Spans s.now self × (j < self.edges) }
        ensures { (result ≡ guarded s.now j) × (result < 256) }
    {
        self.edge_field(s, j, 3)
    }

    // The two counts, which end the header.
    #[tactic(auto, unfolding(paper::specs::Table::nodes, paper::specs::Table::edges))]
    pub fn counts(s: &[u8]) -> Self
        requires { header s.now ≤ length s.now }
        ensures { (result.nodes ≡ nodes s.now) × (result.edges ≡ edges s.now) × (result.nodes < 256) × (result.edges < 256) }
    {
        Self {
            nodes: wire::wide(s[Self::HEADER - 2]),
            edges: wire::wide(s[Self::HEADER - 1]),
        }
    }
}

// The bounds count as inside.
pub fn within(low: usize, high: usize, x: usize) -> bool
    ensures { result ≡ within low high x }
{
    low <= x && x <= high
}

// Tests of a node's kind.
pub fn is_pin(k: usize) -> bool
    ensures { result ≡ is_pin k }
{
    k == Table::INPUT || k == Table::OUTPUT
}

pub fn is_object_node(k: usize) -> bool
    ensures { result ≡ is_object_node k }
{
    within(Table::INPUT, Table::OUTGOING, k)
}

// Whether a node of kind k keeps what comes to it: a buffer or an outgoing parameter.
pub fn is_store(k: usize) -> bool
    ensures { result ≡ is_buffer k || is_outgoing k }
{
    k == Table::BUFFER || k == Table::OUTGOING
}

pub fn is_control_node(k: usize) -> bool
    ensures { result ≡ is_control_node k }
{
    within(Table::DECISION, Table::JOIN, k)
}

// The edges into each node, by number, as lists: `first` gets the first edge of each node, `next` behind each edge the one after it into the same node.
pub fn list_incoming(t: &[u8], table: Table, first: &mut [u8], next: &mut [u8])
    requires { Listable t.now table first.old next.old }
    ensures { Incoming t.now first.new next.new }
{
    for j in (0..table.edges).rev() {
        let i = table.target(t, j);
        next[j] = first[i];
        first[i] = j as u8;
    }
}
