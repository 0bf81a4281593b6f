//! The values of the ports of a face, and of those the data inputs' and the clocks'.

ghost use Rattle.std.specs.Prelude.{◌≡◌, ◌≤◌, length, map, IfOk};
ghost use Rattle.std.specs.List.{AllByRecursion};
ghost use Rattle.std.specs.Vec.{vec_capacity};
ghost use Rattle.bit_ops.specs.Width.{IsWidth};
ghost use Rattle.sv_base.specs.Steps.{set_all};
ghost use Rattle.sv_base.specs.Classes.{is_value, is_clock, level_word, words_of_class};
ghost use Rattle.stimulus_reader.specs.code.LineReading.{Fits, settings_seen};

use crate::setting::Setting;
use bit_ops::Bits;
use std::alloc::{AllocError, Global};
use sv_base::{Class, Name, Port};

/// A copy of these ports.
pub fn copy_ports(alloc: Global, ports: &[Port]) -> Result<Vec<Port>, AllocError>
    ensures { IfOk result (λ copy. copy.items ≡ ports.now) }
{
    let mut copy = Vec::with_capacity(alloc, ports.len())?;
    for port in ports {
        copy.push(Port {
            name: Name::of(alloc, port.name.bytes())?,
            class: port.class,
            signed: port.signed,
            width: port.width,
        })?;
    }
    Ok(copy)
}

/// A zero for each port.
pub fn zeros(alloc: Global, ports: &[Port]) -> Result<Vec<Bits>, AllocError>
    requires { AllByRecursion (λ p. IsWidth p.width) ports.now }
    ensures words { IfOk result
        (λ values. map (λ v. v.word) values.items ≡ map (λ _. 0) ports.now) }
    ensures widths { IfOk result
        (λ values. map (λ v. v.width) values.items ≡ map (λ p. p.width) ports.now) }
{
    let mut values = Vec::with_capacity(alloc, ports.len())?;
    for port in ports {
        values.push(Bits::zero(port.width))?;
    }
    Ok(values)
}

/// Sets the values of a step.
pub fn set_values(settings: &[Setting], values: &mut Vec<Bits>)
    requires { AllByRecursion (Fits (map (λ v. v.width) values.old.items)) settings.now }
    ensures words { map (λ v. v.word) values.new.items
        ≡ set_all (settings_seen settings.now) (map (λ v. v.word) values.old.items) }
    ensures widths { map (λ v. v.width) values.new.items ≡ map (λ v. v.width) values.old.items }
{
    for setting in settings {
        values[setting.port] = setting.value;
    }
}

fn is_value(class: Class) -> bool
    ensures { result ≡ is_value class }
{
    match class {
        Class::Value => true,
        Class::Clock | Class::Idle | Class::Output => false,
    }
}

fn is_clock(class: Class) -> bool
    ensures { result ≡ is_clock class }
{
    match class {
        Class::Clock => true,
        Class::Value | Class::Idle | Class::Output => false,
    }
}

/// Puts the values of the data inputs together, in port order.
pub fn gather_inputs(ports: &[Port], values: &[Bits], inputs: &mut Vec<Bits>)
    requires values { map (λ v. v.width) values.now ≡ map (λ p. p.width) ports.now }
    requires room { length ports.now ≤ vec_capacity inputs.old }
    ensures words { map (λ v. v.word) inputs.new.items
        ≡ words_of_class is_value ports.now (map (λ v. v.word) values.now) }
    ensures widths { map (λ v. v.width) inputs.new.items
        ≡ words_of_class is_value ports.now (map (λ p. p.width) ports.now) }
    ensures capacity { vec_capacity inputs.new ≡ vec_capacity inputs.old }
{
    inputs.clear();
    for i in 0..ports.len() {
        if is_value(ports[i].class) {
            inputs.push_reserved(values[i]);
        }
    }
}

/// Puts the levels of the clocks together, in port order.
pub fn gather_levels(ports: &[Port], values: &[Bits], levels: &mut Vec<bool>)
    requires values { map (λ v. v.width) values.now ≡ map (λ p. p.width) ports.now }
    requires clocks { AllByRecursion (λ p. p.class ≡ Class.Clock → p.width ≡ 1) ports.now }
    requires room { length ports.now ≤ vec_capacity levels.old }
    ensures levels { map level_word levels.new.items
        ≡ words_of_class is_clock ports.now (map (λ v. v.word) values.now) }
    ensures capacity { vec_capacity levels.new ≡ vec_capacity levels.old }
{
    levels.clear();
    for i in 0..ports.len() {
        if is_clock(ports[i].class) {
            levels.push_reserved(values[i].word == 1);
        }
    }
}
