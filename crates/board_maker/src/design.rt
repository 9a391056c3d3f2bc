//! The design: two layers, one via, and nets without pins.
ghost use Rattle.std.specs.Prelude.{◌≡◌, ◌++◌, OnOk, IfOk};
ghost use Rattle.std.specs.List.{flat_map, range_with_len};
ghost use Rattle.board_maker.specs.Designs.{net_line, design_text};

use itoa::Buffer;
use layout_io::Bytes;
use std::alloc::{AllocError, Global};

fn put_net(to: &mut Bytes, net: u32) -> Result<(), AllocError>
    ensures { OnOk result (to.new ≡ to.old ++ net_line net) }
{
    let mut buffer = Buffer::new();
    to.append(b"(net N".as_slice())?;
    to.append(buffer.format(net).as_bytes())?;
    to.append(b")\n".as_slice())
}

fn put_nets(to: &mut Bytes, count: u32) -> Result<(), AllocError>
    ensures { OnOk result (to.new ≡ to.old ++ flat_map net_line (range_with_len 0 count)) }
{
    for net in 0..count {
        put_net(to, net)?;
    }
    Ok(())
}

// The design with so many nets.
pub(crate) fn made_design(alloc: Global, count: u32) -> Result<Bytes, AllocError>
    ensures { IfOk result (λ made. made ≡ design_text count) }
{
    let mut made = Bytes::new(alloc);
    made.append(
        b"(pcb made.dsn\n(unit um)\n(structure\n(layer L1 (type signal))\n(layer L2 (type signal))\n(via V)\n(rule (width 100) (clearance 100))\n)\n(library\n(padstack V (shape (circle L1 400)) (shape (circle L2 400)))\n)\n(network\n".as_slice(),
    )?;
    put_nets(&mut made, count)?;
    made.append(b")\n)\n".as_slice())?;
    Ok(made)
}
