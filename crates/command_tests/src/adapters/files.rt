//! Real files: what a call returns where the system has the file, and where it has none.

use pc_common::Files;
use real_outside::RealFiles;

fn reads_zeros(files: &mut RealFiles<HostRuntime>) -> bool {
    let mut buf = [7; 3];
    files.start("/dev/zero").is_ok() && matches!(files.read(&mut buf), Ok(3)) && buf == [0; 3]
}

fn reads_an_end(files: &mut RealFiles<HostRuntime>) -> bool {
    let mut buf = [7; 3];
    files.start("/dev/null").is_ok() && matches!(files.read(&mut buf), Ok(0))
}

/// A directory can be opened, but not read.
fn fails_on_a_directory(files: &mut RealFiles<HostRuntime>) -> bool {
    let mut buf = [7; 3];
    files.start("/").is_ok() && files.read(&mut buf).is_err()
}

#[test]
fn reads_what_is_there_and_tells_what_fails(rt: HostRuntime) {
    let mut files = RealFiles::new(rt);
    let reads = reads_zeros(&mut files) && reads_an_end(&mut files);
    let fails = files.start("/dev/null/none").is_err() && fails_on_a_directory(&mut files);
    assert!(rt; reads && fails);
}
