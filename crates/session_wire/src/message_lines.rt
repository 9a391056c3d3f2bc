//! How the lines of clients are read and written.
ghost use Rattle.std.specs.Prelude.{◌≡◌, ◌≢◌, ◌++◌, ◌∷◌, [], codes, OnOk, IfOk, IfErr, ℕ, List, Result, Ok, Err};
ghost use Rattle.session_wire.specs.declared.faults.LineFault.TheVariants.{Bad};
ghost use Rattle.session_wire.specs.declared.messages.Message.{Message};
ghost use Rattle.session_wire.specs.Words.{IsWord, EndsWord};
ghost use Rattle.session_wire.specs.Parts.{WhyHalts};
ghost use Rattle.session_wire.specs.Places.{IsBadAt};
ghost use Rattle.session_wire.specs.Readings.{Reads, WhyStopped, WhyUnread, Gives};
ghost use Rattle.session_wire.specs.Messages.{message_text, message_line, IsMessage, HasMessage};
ghost use Rattle.session_wire.specs.Steps.{IsLine};

use crate::faults::{Halt, LineFault};
use crate::messages::Message;
use crate::put_requests::put_request;
use crate::requests::request_behind;
use crate::words::{end_at, is_word, split_word};
use layout_io::Bytes;
use std::alloc::{AllocError, Global};

// The end of the session, behind its word, which ends the line.
fn bye_at(line: &[u8]) -> Result<Message, Halt>
    requires { EndsWord line.now }
    ensures ok { IfOk result (Reads IsMessage message_text (codes "bye" ++ line.now)) }
    ensures err { IfErr result (WhyHalts (λ t. HasMessage (codes "bye" ++ t)) line.now) }
{
    end_at(line)?;
    Ok(Message::Bye)
}

// The request that begins with the word, and which ends the line.
fn ask_at(alloc: Global, word: &[u8], rest: &[u8]) -> Result<Message, Halt>
    requires word { IsWord word.now }
    requires ends { EndsWord rest.now }
    requires no_bye { word.now ≢ codes "bye" }
    ensures ok { IfOk result (Reads IsMessage message_text (word.now ++ rest.now)) }
    ensures err { IfErr result (WhyStopped HasMessage (word.now ++ rest.now)) }
{
    let (request, following) = request_behind(alloc, word, rest)?;
    end_at(following)?;
    Ok(Message::Ask { request })
}

// The message that the line spells.
fn message_of(alloc: Global, line: &[u8]) -> Result<Message, Halt>
    ensures ok { IfOk result (Reads IsMessage message_text line.now) }
    ensures err { IfErr result (WhyStopped HasMessage line.now) }
{
    let (word, rest) = split_word(line);
    if is_word(word, b"bye") {
        return bye_at(rest);
    }
    ask_at(alloc, word, rest)
}

// The message that the line spells, or the byte at which it is bad.
fn decode_message(alloc: Global, line: &[u8]) -> Result<Message, LineFault>
    ensures ok { IfOk result (Reads IsMessage message_text line.now) }
    ensures err { IfErr result (WhyUnread HasMessage line.now) }
{
    match message_of(alloc, line) {
        Ok(message) => Ok(message),
        Err(Halt::Left { left }) => Err(LineFault::Bad {
            at: (line.len() - left) as u32,
        }),
        Err(Halt::Memory) => Err(LineFault::Memory),
    }
}

/// The message that a client's line spells, without its line feed. It is bad exactly where the line spells none.
pub fn decode_line(alloc: Global, line: &[u8]) -> Result<Message, LineFault>
    ensures found { IfOk result (Reads IsMessage message_text line.now) }
    ensures only { (message : Message) → Reads IsMessage message_text line.now message → Gives result (Ok message) }
    ensures fault { IfErr result (WhyUnread HasMessage line.now) }
    ensures first { (at : ℕ) → IsBadAt HasMessage line.now at → Gives result (Err (Bad at)) }
{
    decode_message(alloc, line)
}

fn put_message(to: &mut Bytes, message: &Message) -> Result<(), AllocError>
    ensures { OnOk result (to.new ≡ to.old ++ message_text message.now) }
{
    match message {
        Message::Ask { request } => put_request(to, request),
        Message::Bye => to.append(b"bye".as_slice()),
    }
}

/// Appends a client's line. After an `Err`, for want of memory, a front of it may have been appended.
pub fn write_message(message: &Message, to: &mut Bytes) -> Result<(), AllocError>
    ensures { OnOk result (to.new ≡ to.old ++ message_line message.now) }
{
    put_message(to, message)?;
    to.append(b"\n".as_slice())
}

/// A message's text has no line feed.
pub fn message_is_one_line()
    ensures { (message : Message) → IsMessage message → IsLine (message_text message) }
{}

/// A text spells one message at most.
pub fn one_message()
    ensures { (one : Message) (other : Message) → IsMessage one → IsMessage other → message_text one ≡ message_text other → one ≡ other }
{}
