//! Access to the device in the caller's memory.
ghost use Rattle.std.specs.Prelude.{◌≡◌, ◌≢◌, Option, None, Some};
ghost use Rattle.std.specs.Borrow.{sem};
ghost use Rattle.hidlog_c.specs.Lending.{LendsDevice};

use crate::device::Device;
use crate::memory::Memory;

impl Memory {
    /// Moves a device into the memory.
    pub fn put(&mut self, device: Device)
        requires { self.old.device ≡ None }
        ensures { self.new.device ≡ Some device }
    {
        unsafe {
            (self.at as *mut Device).write(device);
        }
    }

    /// Borrows the device.
    pub fn device(&mut self) -> &mut Device
        requires { self.old.device ≢ None }
        ensures* writes_back { sem 𝓛 (LendsDevice self.entry result) }
        ensures value { self.old.device ≡ Some result.now }
    {
        unsafe { &mut *(self.at as *mut Device) }
    }
}
