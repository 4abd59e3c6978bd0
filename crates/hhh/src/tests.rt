use crate::code_of;
use crate::ending::finish;
use hhh_engine::Status;
use std::process::ExitCode;
use std::test::Fail;
use system_io::StdSink;

#[test]
fn a_status_is_told_in_its_line_and_its_code(rt: HostRuntime) {
    let alloc = rt.alloc();
    let mut room = [0; 20];
    let mut errors = StdSink::new(room.as_mut_slice());
    assert!(rt; finish(alloc, &Status::Done, &mut errors) == ExitCode::from(0));
    assert!(rt; finish(alloc, &Status::ReadFault, &mut errors) == ExitCode::from(4));
    assert!(rt; finish(alloc, &Status::DiskFault, &mut errors) == ExitCode::from(6));
    assert!(rt; room == *b"hhh: read fault\nhhh:");
}

// Whatever arguments a test is given, they are no command.
#[test]
fn arguments_without_a_command_end_with_2(rt: HostRuntime) -> Result<(), Fail> {
    assert_eq!(rt; code_of(&rt, &rt, rt.alloc())?, ExitCode::from(2));
    Ok(())
}
