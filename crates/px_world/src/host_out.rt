use crate::faults::fault;
use crate::{Failed, Sink};
use std::io::Write;

/// Which stream of the host is written to.
#[derive(Clone, Copy)]
enum Stream {
    Output,
    Error,
}

/// The host's standard output or standard error. It tells no bytes.
#[derive(Drop)]
pub struct HostOut<'a> {
    rt: &'a HostRuntime,
    stream: Stream,
    faults: u64,
}

impl HostOut<'_> {
    ghost use Rattle.std.specs.Prelude.{◌≡◌};
    ghost use Rattle.px_world.specs.declared.host_out.Stream.TheVariants.{Output, Error};
    ghost use Rattle.px_world.specs.Host.{host_stream, host_out_faults};

    /// The standard output of this runtime, with no faults.
    pub fn output(rt: &HostRuntime) -> HostOut<'_>
        ensures stream { host_stream result ≡ Output }
        ensures faults { host_out_faults result ≡ 0 }
    {
        HostOut {
            rt,
            stream: Stream::Output,
            faults: 0,
        }
    }

    /// The standard error of this runtime, with no faults.
    pub fn error(rt: &HostRuntime) -> HostOut<'_>
        ensures stream { host_stream result ≡ Error }
        ensures faults { host_out_faults result ≡ 0 }
    {
        HostOut {
            rt,
            stream: Stream::Error,
            faults: 0,
        }
    }
}

impl Sink for HostOut<'_> {
    ghost use Rattle.std.specs.Prelude.{None};
    ghost use Rattle.px_world.specs.Host.{host_out_faults};

    ghost written = { λ _. None };

    ghost faults = { host_out_faults };

    fn write(&mut self, bytes: &[u8]) -> Result<usize, Failed> {
        let taken = match self.stream {
            Stream::Output => self.rt.stdout().write(bytes),
            Stream::Error => self.rt.stderr().write(bytes),
        };
        match taken {
            Ok(count) if count > 0 || bytes.is_empty() => Ok(count),
            _ => Err(fault(&mut self.faults)),
        }
    }
}
