//! A device that injects a fault, for tests.
ghost use Rattle.std.specs.Prelude.{◌≡◌, ◌<◌};

use crate::device::{DeviceFault, Sink, Source};
use http_server::Log;

/// What goes wrong in the call that a [`FaultPlan`] names.
#[derive(Clone, Copy, Debug, PartialEq, Eq)]
pub enum InjectedFault {
    /// The call fails.
    Fails,
    /// A read returns 0, as at the end of the data. A write returns 0, as if there were no room. A
    /// flush succeeds, since it returns no number.
    TakesNone,
}

/// The limit and the fault of the following calls of a [`Faulty`] device.
#[derive(Clone, Copy, Debug, PartialEq, Eq)]
pub struct FaultPlan {
    /// The largest number of bytes that a read or a write moves. It is not 0.
    pub most: usize,
    /// The call that goes wrong, counted from 1 over reads, writes and flushes; 0 for none.
    pub failing_call: u64,
    /// What goes wrong in that call.
    pub fault: InjectedFault,
}

/// A source or sink for tests. It passes each call to the underlying device, except the one call of
/// its plan, which goes wrong.
#[derive(Drop)]
pub struct Faulty<D> {
    device: D,
    plan: FaultPlan,
    /// An entry for each call that failed by the plan. It takes no memory: only proofs read it.
    failures: Log<u64, u64>,
    ghost moves_bytes: { 0 < plan.most },
}

impl<D> Faulty<D> {
    ghost use Rattle.napt_capture.specs.FaultyDevices.{device_of, plan_of, own_failed, fault_of_plan, after_a_call};

    /// Wraps a device, whose following calls obey the plan.
    pub fn new(device: D, plan: FaultPlan) -> Self
        requires { 0 < plan.most }
        ensures device { device_of result ≡ device }
        ensures plan { plan_of result ≡ plan }
        ensures count { own_failed result ≡ 0 }
    {
        Faulty {
            device,
            plan,
            failures: Log::new(),
        }
    }

    /// Returns the underlying device.
    pub fn into_inner(self) -> D
        ensures { result ≡ device_of self }
    {
        let Faulty {
            device,
            plan: _,
            failures: _,
        } = self;
        device
    }

    /// Counts a call, and returns what goes wrong in it, if anything.
    fn next_fault(&mut self) -> Option<InjectedFault>
        ensures answer { result ≡ fault_of_plan self.old.plan }
        ensures left { self.new ≡ record self.old { plan = after_a_call self.old.plan } }
    {
        let goes_wrong = self.plan.failing_call == 1;
        self.plan.failing_call = self.plan.failing_call.saturating_sub(1);
        goes_wrong.then_some(self.plan.fault)
    }
}

impl<D: Source> Source for Faulty<D> {
    ghost use Rattle.std.specs.Prelude.{◌+◌, ◌-◌, ◌^◌, ◌≤◌, IfOk, IfSome};
    ghost use Rattle.std.specs.Io.{ReadsAtMost};
    ghost use Rattle.std.specs.Io.KnownBytes.{ReadConsumes};
    ghost use Rattle.napt_capture.specs.Device.{failed_calls};
    ghost use Rattle.napt_capture.specs.FaultyDevices.{GoesWrong, after_a_call, device_of, plan_of, own_failed, faulty_known_bytes, fault_of_plan};

    ghost remaining = { λ f. faulty_known_bytes (plan_of f).fault (D.remaining (device_of f)) };

    ghost failed = { λ f. own_failed f + D.failed (device_of f) };

    fn read(&mut self, buffer: &mut [u8]) -> Result<usize, DeviceFault>
        ensures bound { ReadsAtMost result buffer.new }
        ensures bytes { ReadConsumes
            (faulty_known_bytes (plan_of self.old).fault (D.remaining (device_of self.old)))
            (faulty_known_bytes (plan_of self.new).fault (D.remaining (device_of self.new)))
            result buffer.new }
        ensures count { own_failed self.new + D.failed (device_of self.new)
            ≡ own_failed self.old + D.failed (device_of self.old) + failed_calls result }
        // In addition to the clauses of the trait, the plan is followed.
        ensures most { IfOk result (λ count. count ≤ (plan_of self.old).most) }
        ensures fault { IfSome (fault_of_plan (plan_of self.old)) (λ fault.
            GoesWrong fault result) }
        ensures plan { plan_of self.new ≡ after_a_call (plan_of self.old) }
    {
        match self.next_fault() {
            None => {
                let most = self.plan.most.min(buffer.len());
                self.device.read(&mut buffer[..most])
            }
            Some(InjectedFault::Fails) => {
                self.failures = self.failures.and(&0, &0);
                Err(DeviceFault)
            }
            Some(InjectedFault::TakesNone) => Ok(0),
        }
    }
}

impl<D: Sink> Sink for Faulty<D> {
    ghost use Rattle.std.specs.Prelude.{◌+◌, ◌-◌, ◌^◌, ◌≤◌, IfOk, IfSome};
    ghost use Rattle.std.specs.Io.{WritesAtMost};
    ghost use Rattle.std.specs.Io.KnownBytes.{WriteAppends};
    ghost use Rattle.napt_capture.specs.Device.{failed_writes};
    ghost use Rattle.napt_capture.specs.FaultyDevices.{GoesWrong, after_a_call, device_of, own_failed, plan_of, fault_of_plan};

    ghost contents = { λ f. D.contents (device_of f) };

    ghost failed = { λ f. own_failed f + D.failed (device_of f) };

    ghost is_flushed = { λ f. D.is_flushed (device_of f) };

    fn write(&mut self, bytes: &[u8]) -> Result<usize, DeviceFault>
        ensures bound { WritesAtMost result bytes.now }
        ensures bytes { WriteAppends (D.contents (device_of self.old))
            (D.contents (device_of self.new)) result bytes.now }
        ensures unflushed { IfOk result (λ count. 0 < count →
            ¬ D.is_flushed (device_of self.new)) }
        ensures held { D.is_flushed (device_of self.new) → D.is_flushed (device_of self.old) }
        ensures count { own_failed self.new + D.failed (device_of self.new)
            ≡ own_failed self.old + D.failed (device_of self.old) + failed_writes result bytes.now }
        // In addition to the clauses of the trait, the plan is followed.
        ensures most { IfOk result (λ count. count ≤ (plan_of self.old).most) }
        ensures fault { IfSome (fault_of_plan (plan_of self.old)) (λ fault.
            GoesWrong fault result) }
        ensures plan { plan_of self.new ≡ after_a_call (plan_of self.old) }
    {
        match self.next_fault() {
            None => {
                let most = self.plan.most.min(bytes.len());
                self.device.write(&bytes[..most])
            }
            Some(InjectedFault::Fails) => {
                self.failures = self.failures.and(&0, &0);
                Err(DeviceFault)
            }
            Some(InjectedFault::TakesNone) => {
                if !bytes.is_empty() {
                    self.failures = self.failures.and(&0, &0);
                }
                Ok(0)
            }
        }
    }

    fn flush(&mut self) -> Result<(), DeviceFault> {
        match self.next_fault() {
            None | Some(InjectedFault::TakesNone) => self.device.flush(),
            Some(InjectedFault::Fails) => {
                self.failures = self.failures.and(&0, &0);
                Err(DeviceFault)
            }
        }
    }
}
