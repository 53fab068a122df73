use crate::faults::fault;
use crate::{Failed, Files};
use std::fs::File;
use std::io::Read;

/// The host's files. They tell no bytes, and every name may be opened. A file that is missing is a fault.
#[derive(Drop)]
pub struct HostFiles<'a> {
    rt: &'a HostRuntime,
    file: Option<File>,
    faults: u64,
}

impl HostFiles<'_> {
    ghost use Rattle.std.specs.Prelude.{◌≡◌, false};
    ghost use Rattle.px_world.specs.Host.{host_is_open, host_file_faults};

    /// The files of this runtime: none is open, and there are no faults.
    pub fn new(rt: &HostRuntime) -> HostFiles<'_>
        ensures closed { host_is_open result ≡ false }
        ensures faults { host_file_faults result ≡ 0 }
    {
        HostFiles {
            rt,
            file: None,
            faults: 0,
        }
    }
}

impl Files for HostFiles<'_> {
    ghost use Rattle.std.specs.Prelude.{None, true};
    ghost use Rattle.px_world.specs.Host.{host_is_open, host_file_faults};

    ghost bytes_of = { λ _ _. None };

    ghost may_open = { λ _ _. true };

    ghost is_open = { host_is_open };

    ghost rest = { λ _. None };

    ghost faults = { host_file_faults };

    fn open_text(&mut self, name: &str) -> Result<(), Failed> {
        self.file = File::open(self.rt, name).ok();
        match self.file {
            Some(_) => Ok(()),
            None => Err(fault(&mut self.faults)),
        }
    }

    fn read(&mut self, buf: &mut [u8]) -> Result<usize, Failed> {
        let Some(file) = &mut self.file else {
            unreachable!()
        };
        match file.read(buf) {
            Ok(count) => Ok(count),
            Err(_) => Err(fault(&mut self.faults)),
        }
    }
}

#[cfg(test)]
mod tests {
    use super::*;

    #[test]
    fn a_missing_file_is_a_fault(rt: HostRuntime) {
        let mut files = HostFiles::new(&rt);
        assert_eq!(rt; files.faults, 0);
        assert_eq!(rt; files.open_text("no/such/file"), Err(Failed));
        assert_eq!(rt; files.faults, 1);
    }
}
