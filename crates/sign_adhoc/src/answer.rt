/// What a check of an image's signature answers.
#[derive(Clone, Copy, Debug, PartialEq, Eq)]
pub enum Check {
    /// A signature stands, and each hash is that of its page.
    Good,
    /// A signature stands, and this page, from 0, is the first one whose hash is another.
    No { page: u32 },
    /// No ad-hoc signature stands where the command says, or there is no command.
    Absent,
}
