//! The parts of a file.

/// The counts of a table, as the header has them.
#[derive(Clone, Copy)]
pub struct Counts {
    /// How many rows it has.
    pub rows: u32,
    /// How many entries there are, of blocks of addresses with the same first bits.
    pub entries: u32,
    /// How many words nodes and lists have.
    pub words: u32,
    /// How many steps of six bits there are behind the first bits.
    pub steps: u32,
    /// How many bytes its values have.
    pub values: u32,
}

/// The parts of a table, in bytes as the file has them; README.md says what they are.
#[derive(Clone, Copy)]
pub struct FileTable<'a> {
    /// The entries of the blocks of addresses that have the same first bits, as `cidr_lookup` has them.
    pub first: &'a [u8],
    /// The words of nodes and lists.
    pub words: &'a [u8],
    /// The first addresses of the keys.
    pub addresses: &'a [u8],
    /// Their prefix lengths.
    pub lengths: &'a [u8],
    /// Where the values begin, and where they end.
    pub offsets: &'a [u8],
    /// The values.
    pub values: &'a [u8],
    /// How many steps of six bits there are behind the first bits.
    pub steps: u32,
}

/// The two tables of a file.
#[derive(Clone, Copy)]
pub struct FileTables<'a> {
    /// The table of IPv4 networks.
    pub ipv4: FileTable<'a>,
    /// The table of IPv6 networks.
    pub ipv6: FileTable<'a>,
}
