//! Laws of the definitions: of chains, of command steps, and of the device under a program.

ghost use Rattle.ccw_programs.specs.Step.{DeviceStays, StepsCompose};
ghost use Rattle.ccw_programs.specs.Walk.{ChainsAreWalks};

use device_port::Device;

/// Every chain that is fetched is in storage, each CCW at the address to which the one before leads (Principles of
/// Operation, chapter 15, "Data Chaining" and "Transfer in Channel").
pub fn chains_are_walks()
    ensures { ChainsAreWalks }
{}

/// Steps compose, so a program may go on in bursts of any sizes. A program has a length, at which it ends: at least
/// one command if it runs, and at most 4,097, as it may fetch 4,096 CCWs (profile).
pub fn steps_compose<D: Device>()
    ensures { StepsCompose D.meaning }
{}

/// Kind and geometry of a device stay over every program (profile).
pub fn device_stays<D: Device>()
    ensures { DeviceStays D.meaning }
{}
