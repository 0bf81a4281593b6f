use stimulus_reader::Reason;

/// Why a stimulus is not played to its end.
#[derive(Debug, Drop)]
pub enum PlayFault {
    /// The line of this number is refused. `word` is what the message names, empty where it names nothing.
    Stimulus {
        line: u64,
        reason: Reason,
        word: Vec<u8>,
    },
    /// A read of the source failed.
    ReadFault,
    /// A write to the sink failed.
    WriteFault,
    /// There was not memory enough to begin.
    NoMemory,
}
