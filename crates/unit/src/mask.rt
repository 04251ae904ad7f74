// The mask of the components that can ring.
ghost use Rattle.std.specs.Prelude.{◌≡◌, ◌≤◌};
ghost use Rattle.sizes.specs.Sizes.{most_components};
ghost use Rattle.unit.specs.Ringable.{RingableMask, inside as is_inside};

// The mask of all components that can ring: as many ones as there are components.
pub fn ringable_mask(components: u8) -> u8
    requires { components ≤ most_components }
    ensures { RingableMask components result }
{
    match components {
        0 => 0x00,
        1 => 0x01,
        2 => 0x03,
        _ => 0x07,
    }
}

// Whether every bit of a mask is one of the ringable mask's.
pub fn inside(mask: u32, components: u8) -> bool
    requires { components ≤ most_components }
    ensures { result ≡ is_inside mask components }
{
    mask & (ringable_mask(components) as u32) == mask
}
