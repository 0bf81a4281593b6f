//! Why a line of a stimulus is refused.

/// Each reason, in the order of their texts. With the word that it names, if it names one, it makes the message.
#[derive(Clone, Copy, Debug, PartialEq, Eq)]
pub enum Reason {
    /// The first word is none that begins a step.
    NoStep,
    /// A word is no name, `=` and a value.
    NoSetting,
    /// No input has the name.
    NoInput,
    /// A line of data sets a clock.
    IsClock,
    /// A line of clocks sets an input that is no clock, and no idle input of one bit.
    NoClock,
    /// The input was set before in the line.
    SetTwice,
    /// The text is no hexadecimal number of 1 to 16 digits, or the input's width does not hold it; on a line of
    /// clocks it is neither `0` nor `1`.
    NoValue,
    /// The line has more than 65,536 bytes before its LF.
    LineTooLong,
    /// The file has more than 1,073,741,824 bytes.
    FileTooLong,
    /// The line would be one step more than are allowed.
    TooManySteps,
}
