//! Real files.

use base_files::{Fetched, FileShelf};
use base_shelf::{ReadErr, Shelf, read_all, write_all};
use std::test::Fail;
use std::{env, fs, process};

#[test]
fn a_file_is_written_and_read(rt: HostRuntime) -> Result<(), Fail> {
    let folder = env::temp_dir(&rt)?;
    let id = process::id(rt.process());
    let name = format!(in rt.alloc(); "{}/base_files-{id}.vcd", folder.as_path().display())?;
    let mut none = Fetched::new(rt.alloc(), 100);
    assert!(rt; none.fetch(&rt, name.as_str()).is_ok());
    let mut shelf = FileShelf::new(&rt, rt.alloc(), &none);
    let gone = read_all(rt.alloc(), &mut shelf, name.as_str(), 100);
    assert!(rt; matches!(gone, Err(ReadErr::Fault)));
    assert!(rt; write_all(&mut shelf, name.as_str(), b"#0\n").is_ok());
    assert!(rt; fs::read(&rt, name.as_str()).is_err());
    assert!(rt; shelf.put_file(name.as_str()).is_ok());
    let mut fetched = Fetched::new(rt.alloc(), 100);
    assert!(rt; fetched.fetch(&rt, name.as_str()).is_ok());
    let mut again = FileShelf::new(&rt, rt.alloc(), &fetched);
    let read = read_all(rt.alloc(), &mut again, name.as_str(), 100);
    assert!(rt; matches!(&read, Ok(text) if text.as_slice() == b"#0\n".as_slice()));
    assert!(rt; write_all(&mut again, name.as_str(), b"#1\n").is_err());
    fs::remove_file(&rt, name.as_str())?;
    Ok(())
}

/// Two files are written, and the second can't be: neither name changes, and no part is left.
#[test]
fn no_part_is_left(rt: HostRuntime) -> Result<(), Fail> {
    let folder = env::temp_dir(&rt)?;
    let id = process::id(rt.process());
    let name = format!(in rt.alloc(); "{}/base_files-{id}.code", folder.as_path().display())?;
    let part = format!(in rt.alloc(); "{}.part", name)?;
    let other = format!(in rt.alloc(); "{}/none/base_files-{id}.code", folder.as_path().display())?;
    fs::write(&rt, name.as_str(), b"old")?;
    let none = Fetched::new(rt.alloc(), 100);
    let mut shelf = FileShelf::new(&rt, rt.alloc(), &none);
    assert!(rt; write_all(&mut shelf, name.as_str(), b"new").is_ok());
    assert!(rt; fs::read(&rt, part.as_str()).is_ok());
    assert!(rt; write_all(&mut shelf, other.as_str(), b"new").is_err());
    shelf.discard();
    assert!(rt; fs::read(&rt, part.as_str()).is_err());
    let left = fs::read(&rt, name.as_str())?;
    assert_eq!(rt; left.as_slice(), b"old".as_slice());
    fs::remove_file(&rt, name.as_str())?;
    Ok(())
}
