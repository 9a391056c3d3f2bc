//! Why a client stops before its end.
ghost use Rattle.std.specs.Prelude.{◌≡◌};
ghost use Rattle.whole_files.specs.Stops.{status_of as file_status};
ghost use Rattle.board_client.specs.Visits.{status_of, talk_status};

use client_talk::Stop as TalkStop;
use whole_files::Stop as FileStop;

/// Why a client stops: the first fault that it met, of its files or in its talk.
#[derive(Clone, Copy, Debug, PartialEq, Eq)]
pub enum ClientStop {
    /// The design or the file of lines wasn't read.
    Files(FileStop),
    /// The talk came to no end.
    Talk(TalkStop),
}

fn file_status(stop: FileStop) -> u8
    ensures { result ≡ file_status stop }
{
    match stop {
        FileStop::Design(_) => 2,
        FileStop::Read => 3,
        FileStop::Write => 4,
        FileStop::Script(_) => 5,
        FileStop::Unclean { .. } => 6,
        FileStop::Memory => 7,
    }
}

fn talk_status(stop: TalkStop) -> u8
    ensures { result ≡ talk_status stop }
{
    match stop {
        TalkStop::Out => 4,
        TalkStop::Memory => 7,
        TalkStop::Link => 9,
        TalkStop::Ended => 9,
        TalkStop::Refused => 10,
    }
}

/// The status of an end.
pub(crate) fn status_of(end: Result<(), ClientStop>) -> u8
    ensures { result ≡ status_of end }
{
    match end {
        Ok(()) => 0,
        Err(ClientStop::Files(stop)) => file_status(stop),
        Err(ClientStop::Talk(stop)) => talk_status(stop),
    }
}
