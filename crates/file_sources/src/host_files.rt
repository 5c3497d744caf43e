//! A device that reads files of discovery.
use crate::bodies::Bodies;
use crate::matching::paths_between;
use file_configs::{FileText, FilesFault, ReadFiles, folder_of, placed, star_in};
use lists::{List, Text};
use std::alloc::{AllocError, AllocGlobal, Global};
use std::fs::File;
use std::rt::Files;

/// The files of discovery of a configuration on this machine's disk.
#[derive(Drop)]
pub struct HostFiles<R> {
    rt: R,
    alloc: Global,
    /// The folder of the configuration, with its slash.
    folder: Text,
}

impl<R> HostFiles<R> {
    /// The files that the configuration at a path names: a path that does not begin with a slash is looked for where the configuration is.
    pub fn beside(rt: R, alloc: Global, configuration: &str) -> Result<HostFiles<R>, AllocError>
    where
        R: Drop,
    {
        let folder = Text::from_str(alloc, folder_of(configuration))?;
        Ok(HostFiles { rt, alloc, folder })
    }
}

impl<R: Files<File = File> + AllocGlobal + Clone + Drop> ReadFiles for HostFiles<R> {
    /// A path at which there is no file is that of none. No more than `LONGEST_FILES` bytes are read in all.
    fn read_files(&self, patterns: &[Text]) -> Result<List<FileText>, FilesFault> {
        let mut bodies = Bodies::none(self.alloc);
        for pattern in patterns {
            self.read_pattern(&mut bodies, pattern.as_str())?;
        }
        Ok(bodies.files)
    }
}

impl<R: Files<File = File> + AllocGlobal + Clone + Drop> HostFiles<R> {
    fn read_pattern(&self, bodies: &mut Bodies, pattern: &str) -> Result<(), FilesFault> {
        let pattern = placed(self.alloc, self.folder.as_str(), pattern)?;
        match star_in(pattern.as_str()) {
            Some((head, tail)) => self.read_between(bodies, head, tail),
            None => bodies.read(&self.rt, self.alloc, pattern.as_str()),
        }
    }

    fn read_between(&self, bodies: &mut Bodies, head: &str, tail: &str) -> Result<(), FilesFault> {
        let paths = paths_between(&self.rt, self.alloc, head, tail)?;
        for path in &paths {
            bodies.read(&self.rt, self.alloc, path.as_str())?;
        }
        Ok(())
    }
}
