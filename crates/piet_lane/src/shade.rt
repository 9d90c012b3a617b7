// The shades of lanes and of the column.
ghost use Rattle.std.specs.Prelude.{◌≡◌, ℕ, ◌+◌, ◌%◌, ◌<◌, ◌∷◌, length, OnOk};
ghost use Rattle.piet_lane.specs.Board.{hues, lights, shifted, head_shade, column_shade, in_shade};
ghost use Rattle.piet_lane.specs.Drawn.{lane_colours};
ghost use Rattle.piet_lane.specs.Lanes.{act_of_command, acts_of};

use crate::command::Command;
use piet_image::Colour;
use std::alloc::AllocError;

/// A colour that is neither white nor black.
#[derive(Clone, Copy)]
pub struct Shade {
    pub hue: u8,
    pub light: u8,
}

/// The colour of a shade.
pub fn coloured(shade: Shade) -> Colour
    ensures { result ≡ Colour.Hue shade.hue shade.light }
{
    Colour::Hue {
        hue: shade.hue,
        light: shade.light,
    }
}

fn hues_of(command: Command) -> u8
    ensures same { result ≡ hues (act_of_command command) }
    ensures small { result < 6 }
{
    match command {
        Command::Push | Command::Pop => 0,
        Command::Add | Command::Subtract | Command::Multiply => 1,
        Command::Divide | Command::Modulo | Command::Not => 2,
        Command::Greater => 3,
        Command::Duplicate | Command::Roll => 4,
        Command::InChar | Command::OutChar => 5,
    }
}

fn lights_of(command: Command) -> u8
    ensures same { result ≡ lights (act_of_command command) }
    ensures small { result < 3 }
{
    match command {
        Command::Add | Command::Divide | Command::Greater | Command::Duplicate | Command::InChar =>
            0,
        Command::Push | Command::Subtract | Command::Modulo | Command::Roll => 1,
        Command::Pop | Command::Multiply | Command::Not | Command::OutChar => 2,
    }
}

// A shade so many steps on in the hues, and so many darker.
fn moved(shade: Shade, hues: u8, lights: u8) -> Shade
    requires first { (shade.hue < 6) × (shade.light < 3) }
    requires second { (hues < 6) × (lights < 3) }
    ensures shade { result ≡ record { hue = (shade.hue + hues) % 6; light = (shade.light + lights) % 3 } }
    ensures small { (result.hue < 6) × (result.light < 3) }
{
    Shade {
        hue: (shade.hue + hues) % 6,
        light: (shade.light + lights) % 3,
    }
}

// The shade to which a command leads.
fn led_to(shade: Shade, command: Command) -> Shade
    requires { (shade.hue < 6) × (shade.light < 3) }
    ensures shade { result ≡ shifted shade (act_of_command command) }
    ensures small { (result.hue < 6) × (result.light < 3) }
{
    moved(shade, hues_of(command), lights_of(command))
}

// The shade of the column at a lane's head.
fn head(lane: u32) -> Shade
    requires { lane < 20000 }
    ensures shade { result ≡ head_shade lane }
    ensures small { (result.hue < 6) × (result.light < 3) }
{
    Shade {
        hue: ((4 * lane) % 6) as u8,
        light: ((2 * lane) % 3) as u8,
    }
}

/// The shade of the column so many codels below a lane's head.
pub fn column(lane: u32, below: u32) -> Shade
    requires lane { lane < 20000 }
    requires below { below < 5 }
    ensures shade { result ≡ column_shade lane below }
    ensures small { (result.hue < 6) × (result.light < 3) }
{
    let first = head(lane);
    if below == 0 {
        return first;
    }
    let second = moved(first, 4, 0);
    if below == 1 {
        return second;
    }
    let third = moved(second, 2, 2);
    if below == 2 {
        return third;
    }
    let fourth = moved(third, 3, 1);
    if below == 3 {
        return fourth;
    }
    moved(fourth, 0, 1)
}

/// The colours of a lane from the column on, in place of others.
pub fn colour_lane(
    lane: u32,
    commands: &[Command],
    colours: &mut Vec<Colour>,
) -> Result<(), AllocError>
    requires { lane < 20000 }
    ensures { OnOk result (colours.new.items ≡ lane_colours lane (acts_of commands.now)) }
{
    colours.clear();
    let start = column(lane, 3);
    colours.push(coloured(start))?;
    let mut shade = led_to(start, Command::Pop);
    colours.push(coloured(shade))?;
    for i in 0..commands.len() {
        shade = led_to(shade, commands[i]);
        colours.push(coloured(shade))?;
    }
    Ok(())
}
