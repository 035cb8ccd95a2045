// A board of two jobs, as workers see it.
use crate::callers::boards::{counted, failed, new_board, resumed_board, round};
use std::test::Fail;
use workboard::{BoardFault, Ticket};

#[test]
fn a_ticket_is_stale_once_its_job_is_taken_back(rt: HostRuntime) -> Result<(), Fail> {
    let Ok(mut board) = new_board(rt.alloc()) else {
        return Err("no board".into());
    };
    let late = board.give(1)?;
    assert!(rt; board.reclaim(late.job) & !board.is_current(&late));
    let current = board.give(2)?;
    assert_eq!(rt; current, Ticket { job: 1, serial: 2 });
    assert_eq!(rt; board.deliver(late), Err(BoardFault::Stale));
    assert_eq!(rt; board.deliver(current), Ok(()));
    assert_eq!(rt; counted(&board), [1, 0, 1]);
    assert_eq!(rt; BoardFault::Stale.number(), 65);
    Ok(())
}

#[test]
fn a_job_is_given_up_at_its_third_fault(rt: HostRuntime) -> Result<(), Fail> {
    let Ok(mut board) = resumed_board(rt.alloc()) else {
        return Err("no board".into());
    };
    for _ in 0..2 {
        assert_eq!(rt; failed(&mut board, 1, 0), Ok(false));
    }
    let given_up = BoardFault::GivenUp { job: 1 };
    assert_eq!(rt; failed(&mut board, 1, 0), Err(given_up));
    assert_eq!(rt; counted(&board), [1, 0, 1]);
    assert_eq!(rt; round(&mut board, 2), Ok(true));
    assert_eq!(rt; round(&mut board, 2), Err(BoardFault::NoOpenJob));
    assert_eq!(rt;
        [given_up.number(), BoardFault::NoOpenJob.number()],
        [66, 64]
    );
    Ok(())
}
