//! The files of a folder by number, over the system calls of a folder.
#![tactic(auto)]

mod folder;
mod folder_site;
mod listing;
mod name;
mod opened;
mod print;
mod read;
mod write;

pub use folder_site::FolderSite;
pub use opened::OpenedFile;
