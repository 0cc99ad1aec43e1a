use crate::items::Items;
use crate::text::Text;

/// A worker process that a script declares, and the client that it serves.
#[derive(Debug, Drop)]
pub struct WorkerInfo {
    pub pid: u32,
    pub uid: u32,
    pub guid: u64,
    pub machine: Text,
    pub share: Text,
    /// It is of a release that keeps share mode records of version 1.
    pub old: bool,
}

/// A file that a script declares, by its device and inode. Its extid is 0.
#[derive(Debug, Drop)]
pub struct FileInfo {
    pub dev: u64,
    pub inode: u64,
    pub path: Text,
    pub name: Text,
}

/// The declared workers and files. Their numbers count from 1, in the order in which they stand here.
#[derive(Debug, Drop)]
pub struct Setup {
    pub workers: Items<WorkerInfo>,
    pub files: Items<FileInfo>,
}
