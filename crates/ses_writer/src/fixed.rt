//! The fixed texts of a session.
ghost use Rattle.std.specs.Prelude.{◌≡◌, ◌++◌, OnOk, if◌then◌else◌};
ghost use Rattle.ses_writer.specs.Routes.{path_open, path_close, wire_open, wire_close, via_open, via_close, type_line};
ghost use Rattle.ses_writer.specs.Library.{shape_open, shape_close, stack_open, stack_close};
ghost use Rattle.ses_writer.specs.Session.{net_open, net_close, session_open, design_open, routes_open, middle_text, back_text};

use layout_io::Bytes;
use std::alloc::AllocError;

#[tactic(auto, unfolding(crate::specs::Routes::path_open))]
pub fn put_path_open(out: &mut Bytes) -> Result<(), AllocError>
    ensures { OnOk result (out.new ≡ out.old ++ path_open) }
{
    out.append(b"          (path ".as_slice())
}

#[tactic(auto, unfolding(crate::specs::Routes::path_close))]
pub fn put_path_close(out: &mut Bytes) -> Result<(), AllocError>
    ensures { OnOk result (out.new ≡ out.old ++ path_close) }
{
    out.append(b"          )\n".as_slice())
}

#[tactic(auto, unfolding(crate::specs::Routes::wire_open))]
pub fn put_wire_open(out: &mut Bytes) -> Result<(), AllocError>
    ensures { OnOk result (out.new ≡ out.old ++ wire_open) }
{
    out.append(b"        (wire\n".as_slice())
}

#[tactic(auto, unfolding(crate::specs::Routes::wire_close))]
pub fn put_wire_close(out: &mut Bytes) -> Result<(), AllocError>
    ensures { OnOk result (out.new ≡ out.old ++ wire_close) }
{
    out.append(b"        )\n".as_slice())
}

#[tactic(auto, unfolding(crate::specs::Session::net_open))]
pub fn put_net_open(out: &mut Bytes) -> Result<(), AllocError>
    ensures { OnOk result (out.new ≡ out.old ++ net_open) }
{
    out.append(b"      (net ".as_slice())
}

#[tactic(auto, unfolding(crate::specs::Session::net_close))]
pub fn put_net_close(out: &mut Bytes) -> Result<(), AllocError>
    ensures { OnOk result (out.new ≡ out.old ++ net_close) }
{
    out.append(b"      )\n".as_slice())
}

#[tactic(auto, unfolding(crate::specs::Session::session_open))]
pub fn put_session_open(out: &mut Bytes) -> Result<(), AllocError>
    ensures { OnOk result (out.new ≡ out.old ++ session_open) }
{
    out.append(b"(session ".as_slice())
}

#[tactic(auto, unfolding(crate::specs::Session::design_open))]
pub fn put_design_open(out: &mut Bytes) -> Result<(), AllocError>
    ensures { OnOk result (out.new ≡ out.old ++ design_open) }
{
    out.append(b"\n  (base_design ".as_slice())
}

#[tactic(auto, unfolding(crate::specs::Session::routes_open))]
pub fn put_routes_open(out: &mut Bytes) -> Result<(), AllocError>
    ensures { OnOk result (out.new ≡ out.old ++ routes_open) }
{
    out.append(
        b")\n  (routes\n    (resolution um 1000)\n    (parser\n      (host_cad layout_server)\n      (host_version 1)\n    )\n    (library_out\n".as_slice(),
    )
}

#[tactic(auto, unfolding(crate::specs::Session::back_text))]
pub fn put_back_text(out: &mut Bytes) -> Result<(), AllocError>
    ensures { OnOk result (out.new ≡ out.old ++ back_text) }
{
    out.append(b"    )\n  )\n)\n".as_slice())
}

#[tactic(auto, unfolding(crate::specs::Routes::via_open))]
pub fn put_via_open(out: &mut Bytes) -> Result<(), AllocError>
    ensures { OnOk result (out.new ≡ out.old ++ via_open) }
{
    out.append(b"        (via ".as_slice())
}

#[tactic(auto, unfolding(crate::specs::Library::shape_open))]
pub fn put_shape_open(out: &mut Bytes) -> Result<(), AllocError>
    ensures { OnOk result (out.new ≡ out.old ++ shape_open) }
{
    out.append(b"        (shape (".as_slice())
}

#[tactic(auto, unfolding(crate::specs::Library::shape_close))]
pub fn put_shape_close(out: &mut Bytes) -> Result<(), AllocError>
    ensures { OnOk result (out.new ≡ out.old ++ shape_close) }
{
    out.append(b"))\n".as_slice())
}

#[tactic(auto, unfolding(crate::specs::Library::stack_open))]
pub fn put_stack_open(out: &mut Bytes) -> Result<(), AllocError>
    ensures { OnOk result (out.new ≡ out.old ++ stack_open) }
{
    out.append(b"      (padstack ".as_slice())
}

#[tactic(auto, unfolding(crate::specs::Library::stack_close))]
pub fn put_stack_close(out: &mut Bytes) -> Result<(), AllocError>
    ensures { OnOk result (out.new ≡ out.old ++ stack_close) }
{
    out.append(b"        (attach off)\n      )\n".as_slice())
}

#[tactic(auto, unfolding(crate::specs::Session::middle_text))]
pub fn put_middle_text(out: &mut Bytes) -> Result<(), AllocError>
    ensures { OnOk result (out.new ≡ out.old ++ middle_text) }
{
    out.append(b"    )\n    (network_out\n".as_slice())
}
