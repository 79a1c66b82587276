// A file that stands for a device: its size never changes while it is open.
use std::fs::{File, OpenOptions};
use std::io;
use std::os::unix::fs::FileExt;
use std::rt::Files;

/// Opens the file at that path for reading and writing. It fails where there is none.
pub fn open_device(files: &impl Files<File = File>, path: &str) -> io::Result<File> {
    let mut how = OpenOptions::new();
    how.read(true).write(true);
    how.open(files, path)
}

/// Makes the file at that path one of so many zeros, in place of any that was there. After an error it may have any length.
pub fn make_device(files: &impl Files<File = File>, path: &str, length: u64) -> io::Result<File> {
    let mut how = OpenOptions::new();
    how.read(true).write(true).create(true).truncate(true);
    let file = how.open(files, path)?;
    file.set_len(length)?;
    file.sync_all()?;
    Ok(file)
}

/// Writes these bytes at that place, and waits until they are on the device. As the size stays, the data alone have to be
/// synced, which takes a third of the time.
pub fn put(file: &File, bytes: &[u8], place: u64) -> io::Result<()> {
    file.write_all_at(bytes, place)?;
    file.sync_data()
}
