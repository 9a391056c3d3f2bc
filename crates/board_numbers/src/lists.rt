//! The lines of layers, padstacks, classes and nets.
ghost use Rattle.std.specs.Prelude.{◌≡◌, ◌++◌, OnOk};
ghost use Rattle.board_numbers.specs.Lines.{layer_line, stack_line, rule_end, class_line, net_line};
ghost use Rattle.board_numbers.specs.Numbers.{numbered};

use crate::words::{put_front, put_number, put_optional};
use board_items::Padstack;
use board_rules::{ClassRow, NetRow, What, value_of};
use layout_io::{Bytes, Name};
use quoted_names::put_name;
use std::alloc::AllocError;

#[tactic(auto, unfolding(crate::specs::Lines::layer_line))]
fn put_layer(out: &mut Bytes, n: usize, name: &[u8]) -> Result<(), AllocError>
    ensures { OnOk result (out.new ≡ out.old ++ layer_line n name.now) }
{
    put_front(out, b"layer", n)?;
    put_name(out, name)?;
    out.append(b"\n".as_slice())
}

/// Puts a line for each layer.
pub fn put_layers(out: &mut Bytes, layers: &[Name]) -> Result<(), AllocError>
    ensures { OnOk result (out.new ≡ out.old ++ numbered layer_line 0 layers.now) }
{
    for (n, name) in layers.iter().enumerate() {
        put_layer(out, n, name.as_slice())?;
    }
    Ok(())
}

#[tactic(auto, unfolding(crate::specs::Lines::stack_line))]
fn put_stack(out: &mut Bytes, n: usize, stack: &Padstack) -> Result<(), AllocError>
    ensures { OnOk result (out.new ≡ out.old ++ stack_line n stack.now) }
{
    put_front(out, b"padstack", n)?;
    put_name(out, stack.name.as_slice())?;
    out.append(b" shapes ".as_slice())?;
    put_number(out, stack.shapes.len())?;
    out.append(b"\n".as_slice())
}

/// Puts a line for each padstack.
pub fn put_stacks(out: &mut Bytes, stacks: &[Padstack]) -> Result<(), AllocError>
    ensures { OnOk result (out.new ≡ out.old ++ numbered stack_line 0 stacks.now) }
{
    for (n, stack) in stacks.iter().enumerate() {
        put_stack(out, n, stack)?;
    }
    Ok(())
}

// Puts a clearance and a least width, and ends the line.
#[tactic(auto, unfolding(crate::specs::Lines::rule_end))]
fn put_rule_end(
    out: &mut Bytes,
    clearance: Option<u32>,
    width: Option<u32>,
) -> Result<(), AllocError>
    ensures { OnOk result (out.new ≡ out.old ++ rule_end clearance width) }
{
    out.append(b" clearance ".as_slice())?;
    put_optional(out, clearance)?;
    out.append(b" width ".as_slice())?;
    put_optional(out, width)?;
    out.append(b"\n".as_slice())
}

#[tactic(auto, unfolding(crate::specs::Lines::class_line))]
fn put_class(out: &mut Bytes, n: usize, class: &ClassRow) -> Result<(), AllocError>
    ensures { OnOk result (out.new ≡ out.old ++ class_line n class.now) }
{
    let clearance = value_of(class.clearances.as_slice(), What::Untyped);
    put_front(out, b"class", n)?;
    put_name(out, class.name.as_slice())?;
    put_rule_end(out, clearance, class.width)
}

/// Puts a line for each class. Class 0 is the structure's rule, with an empty name.
pub fn put_classes(out: &mut Bytes, classes: &[ClassRow]) -> Result<(), AllocError>
    ensures { OnOk result (out.new ≡ out.old ++ numbered class_line 0 classes.now) }
{
    for (n, class) in classes.iter().enumerate() {
        put_class(out, n, class)?;
    }
    Ok(())
}

#[tactic(auto, unfolding(crate::specs::Lines::net_line))]
fn put_net(out: &mut Bytes, n: usize, net: &NetRow) -> Result<(), AllocError>
    ensures { OnOk result (out.new ≡ out.old ++ net_line n net.now) }
{
    put_front(out, b"net", n)?;
    put_name(out, net.name.as_slice())?;
    out.append(b" class ".as_slice())?;
    put_number(out, net.class as usize)?;
    out.append(b"\n".as_slice())
}

/// Puts a line for each net.
pub fn put_nets(out: &mut Bytes, nets: &[NetRow]) -> Result<(), AllocError>
    ensures { OnOk result (out.new ≡ out.old ++ numbered net_line 0 nets.now) }
{
    for (n, net) in nets.iter().enumerate() {
        put_net(out, n, net)?;
    }
    Ok(())
}
