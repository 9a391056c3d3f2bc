//! The whole text of a session.
ghost use Rattle.std.specs.Prelude.{◌≡◌, ◌<◌, ◌^◌, ◌++◌, OnOk, IfOk, length};
ghost use Rattle.board_core.specs.Boards.{IsBoardOf};
ghost use Rattle.ses_writer.specs.Session.{front_text, session_of};

use crate::by_net::lists_of_board;
use crate::fixed::{
    put_back_text, put_design_open, put_middle_text, put_routes_open, put_session_open,
};
use crate::library::put_stacks;
use crate::nets::put_nets;
use board_core::Board;
use board_rules::Design;
use layout_io::Bytes;
use quoted_names::put_name;
use std::alloc::{AllocError, Global};

#[tactic(auto, unfolding(crate::specs::Session::front_text))]
fn put_front(out: &mut Bytes, name: &[u8]) -> Result<(), AllocError>
    ensures { OnOk result (out.new ≡ out.old ++ front_text name.now) }
{
    put_session_open(out)?;
    put_name(out, name)?;
    put_design_open(out)?;
    put_name(out, name)?;
    put_routes_open(out)
}

/// The session text of a design and a board. Its one error is want of memory.
#[tactic(auto, unfolding(crate::specs::Session::session_of))]
pub fn session_text(alloc: Global, design: &Design, board: &Board) -> Result<Bytes, AllocError>
    requires { IsBoardOf design.now.parts board.now }
    ensures { IfOk result (λ text. text ≡ session_of design.now.parts board.now.live) }
{
    let lists = lists_of_board(alloc, design, board)?;
    let mut out = Bytes::new(alloc);
    put_front(&mut out, design.name().as_slice())?;
    put_stacks(&mut out, design, &lists.marks)?;
    put_middle_text(&mut out)?;
    put_nets(&mut out, design, &lists.nets)?;
    put_back_text(&mut out)?;
    Ok(out)
}
