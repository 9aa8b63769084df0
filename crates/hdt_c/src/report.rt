//! Reports of a build.

/// `hdt_report`: the result of a build.
#[repr(C)]
#[derive(Clone, Copy)]
pub struct HdtReport {
    /// 0: built; 1 to 9: the number of the error's reason; 251: no triples; 252: the options are not valid; 255: out of
    /// memory.
    pub reason: u32,
    /// The line of the error, from 1; 0 if there is none.
    pub line: u64,
    /// The column of the error, in bytes from 1; 0 if there is none.
    pub column: u64,
    /// The number of triples, then of strings: shared, subjects, predicates, objects; zeros if the reason isn't 0.
    pub counts: [u64; 5],
}

/// `hdt_split_report`: the result of splitting a text.
#[repr(C)]
#[derive(Clone, Copy)]
pub struct HdtSplitReport {
    /// 0: split; 1 to 9: the number of the error's reason; 252: the number of parts is not valid; 255: out of memory.
    pub reason: u32,
    /// 1 if the subject or the object of a triple is a blank node, else 0.
    pub has_blank_nodes: u32,
    /// The line of the error, from 1; 0 if there is none.
    pub line: u64,
    /// The column of the error, in bytes from 1; 0 if there is none.
    pub column: u64,
    /// The number of lines; 0 if the reason isn't 0.
    pub lines: u64,
    /// The number of lines with a triple; 0 if the reason isn't 0.
    pub triples: u64,
}

/// `hdt_text_result`: the result of making the text of a graph.
#[repr(C)]
#[derive(Clone, Copy)]
pub struct HdtTextResult {
    /// 0: there is a text; 250: a string is not a term that its role allows; 253: the graph is closed; 255: out of
    /// memory.
    pub reason: u32,
    /// With reason 250, the role of the first such string; else 0.
    pub role: u32,
    /// With reason 250, the ID of the first such string; else 0.
    pub number: u64,
}
