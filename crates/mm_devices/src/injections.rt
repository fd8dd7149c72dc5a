ghost use Rattle.std.specs.Prelude.{◌≡◌, []};
ghost use Rattle.mm_types.specs.{Loan};

use crate::plans::Plan;
use crate::{BlockDevice, Inject};
use mm_types::{Direction, Failed, OpenFault};

/// A borrowed device that also fails the calls that were named (own). A named call does not reach
/// the device; any other is the device's own.
#[derive(Drop)]
pub struct Injected<'a, B: BlockDevice> {
    device: &'a mut B,
    plan: Plan,
}

impl<'a, B: BlockDevice> Injected<'a, B> {
    /// Over a device. No call is named.
    pub fn new(device: &'a mut B) -> Injected<'a, B>
        ensures same_reference { result.device.ghost_name ≡ device.entry.ghost_name }
        ensures device { result.device.now ≡ device.old }
        ensures named { result.plan ≡ [] }
    {
        Injected {
            device,
            plan: Plan::new(),
        }
    }

    /// Gives the device back as it stands.
    pub fn finish(self) -> &'a mut B
        ensures same_reference { result.ghost_name ≡ self.entry.device.ghost_name }
        ensures device { result.now ≡ self.entry.device.now }
    {
        let Injected { device, plan: _ } = self;
        device
    }
}

impl<'a, B: BlockDevice> Inject for Injected<'a, B> {
    ghost blocks = { λ d. B.blocks d.device.now };

    ghost log = { λ d. B.log d.device.now };

    ghost named = { λ d. d.plan };

    ghost faults = { λ d. B.faults d.device.now };

    ghost loans = { λ d. Loan d.device.ghost_name };

    fn extend(&mut self, n: u32) -> Result<(), OpenFault> {
        self.device.extend(n)
    }

    fn read(&mut self, i: u32, out: &mut [u8; 4096]) -> Result<(), Failed> {
        if self.plan.fails(Direction::Read) {
            return Err(Failed);
        }
        self.device.read(i, out)
    }

    fn write(&mut self, i: u32, bytes: &[u8; 4096]) -> Result<(), Failed> {
        if self.plan.fails(Direction::Write) {
            return Err(Failed);
        }
        self.device.write(i, bytes)
    }

    fn name_calls(&mut self, direction: Direction, k: u32, n: u32) {
        self.plan.add(direction, k, n);
    }
}
