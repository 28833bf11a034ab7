use gcx_model::Off;

/// A statement that was carried out at an open node, below which nodes may come that it reaches.
#[derive(Drop, Debug)]
pub struct Ahead {
    /// How deep the node lies. The document node lies at 0.
    pub level: u32,
    pub off: Off,
}
