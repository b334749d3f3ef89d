// The C library: each call exported with plain numbers and slices of numbers. It keeps nothing between calls.
#![tactic(auto)]

ghost use Rattle.std.specs.Prelude.{[]};
ghost use Rattle.rules.specs.Order.{verdict};
ghost use Rattle.rules.specs.Order.Order.{supply, move, end_phase, attack, retreat, losses, advance, close};
ghost use Rattle.referee.specs.Exported.{Exported};

#[unsafe(no_mangle)]
pub extern "C" fn ia_supply(pos: &[u8], nationality: u32, out: &mut [u8]) -> u64
    ensures { Exported pos.now out.old (verdict pos.now (supply nationality) out.old) result pos.now out.new }
{
    packing::pack_answer(rules::supply(pos, nationality as usize, out))
}

#[unsafe(no_mangle)]
pub extern "C" fn ia_move(pos: &mut [u8], unit: u32, path: &[u16]) -> u64
    ensures { Exported pos.old [] (verdict pos.old (move unit path.now) []) result pos.new [] }
{
    packing::pack_moved(rules::move_unit(pos, unit as usize, path))
}

#[unsafe(no_mangle)]
pub extern "C" fn ia_end_phase(pos: &mut [u8], scratch: &mut [u8]) -> u64
    ensures { Exported pos.old scratch.old (verdict pos.old end_phase scratch.old) result pos.new scratch.new }
{
    packing::pack_answer(rules::end_phase(pos, scratch))
}

#[unsafe(no_mangle)]
pub extern "C" fn ia_attack(
    pos: &mut [u8],
    target: u32,
    units: &[u16],
    die: u32,
    scratch: &mut [u8],
) -> u64
    ensures { Exported pos.old scratch.old (verdict pos.old (attack target units.now die) scratch.old) result pos.new scratch.new }
{
    packing::pack_fought(rules::attack(pos, target as usize, units, die as usize, scratch))
}

#[unsafe(no_mangle)]
pub extern "C" fn ia_retreat(pos: &mut [u8], hex: u32, route: &[u16], pushes: &[u16]) -> u64
    ensures { Exported pos.old [] (verdict pos.old (retreat hex route.now pushes.now) []) result pos.new [] }
{
    packing::pack_retreated(rules::retreat(pos, hex as usize, route, pushes))
}

#[unsafe(no_mangle)]
pub extern "C" fn ia_losses(pos: &mut [u8], units: &[u16]) -> u64
    ensures { Exported pos.old [] (verdict pos.old (losses units.now) []) result pos.new [] }
{
    packing::pack_answer(rules::losses(pos, units))
}

#[unsafe(no_mangle)]
pub extern "C" fn ia_advance(pos: &mut [u8], unit: u32, hex: u32) -> u64
    ensures { Exported pos.old [] (verdict pos.old (advance unit hex) []) result pos.new [] }
{
    packing::pack_answer(rules::advance(pos, unit as usize, hex as usize))
}

#[unsafe(no_mangle)]
pub extern "C" fn ia_close(pos: &mut [u8]) -> u64
    ensures { Exported pos.old [] (verdict pos.old close []) result pos.new [] }
{
    packing::pack_answer(rules::close(pos))
}
