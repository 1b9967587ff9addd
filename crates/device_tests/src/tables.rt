use block_snoop::Purpose;
use cxl_message::{Channel, Line, Message, Meta, NdrOp, ReqOp, RspOp, SnpType, Span, Tag};
use device_tables::{HostCredits, Progress, Requests, Task, TaskKind, Tasks, Waiting};
use snoop_filter::Block;
use std::test::Fail;

#[test]
fn credits_are_held_and_given_back(rt: HostRuntime) -> Result<(), Fail> {
    let mut credits = HostCredits::full(2);
    credits.take(&Message::BiConflict { tag: Tag(1) });
    assert_eq!(rt; credits.held(Channel::Rwd), 1);
    credits.spend(Channel::Ndr);
    assert_eq!(rt; credits.left(Channel::Ndr), 1);
    credits.give_back(Channel::Rwd);
    assert_eq!(rt; credits.held(Channel::Rwd), 0);
    credits.take(&Message::Credit {
        channel: Channel::Ndr,
    });
    assert_eq!(rt; credits.left(Channel::Ndr), 2);
    Ok(())
}

/// A MemRd Shared with a tag.
fn request(tag: u32) -> Waiting {
    Waiting {
        op: ReqOp::MemRd,
        meta: Meta::Shared,
        snp: SnpType::SnpData,
        tag: Tag(tag),
        line: Line(tag),
        progress: Progress::NoEviction,
    }
}

#[test]
fn requests_keep_their_order_and_are_found_by_tag(rt: HostRuntime) -> Result<(), Fail> {
    let mut requests = Requests::open(rt.alloc())?;
    requests.push(request(5));
    requests.push(request(6));
    requests.push(request(7));
    requests.set_progress(Tag(7), Progress::Reserved);
    requests.remove(Tag(5));
    assert_eq!(rt; requests.waiting().len(), 2);
    assert!(rt; requests.waiting()[0].has_tag(Tag(6)));
    assert!(rt; requests.with_tag(Tag(5)).is_none());
    let last = requests.with_tag(Tag(7)).expect(&rt, "a request");
    assert_eq!(rt; last.line, Line(7));
    assert!(rt; matches!(last.progress, Progress::Reserved));
    let other = requests.with_tag(Tag(6)).expect(&rt, "a request");
    assert!(rt; matches!(other.progress, Progress::NoEviction));
    Ok(())
}

const PAIR: Block = Block {
    first: Line(4),
    span: Span::Two,
};

#[test]
fn a_host_answers_a_task_line_by_line(rt: HostRuntime) -> Result<(), Fail> {
    let mut task = Task::new(PAIR, TaskKind::Eviction, 1, Tag(5), 3);
    assert_eq!(rt; task.block(), PAIR);
    assert_eq!(rt; task.first(), 4);
    assert!(rt; matches!(task.kind(), TaskKind::Eviction));
    assert_eq!(rt; task.host(), 1);
    assert_eq!(rt; task.tag(), Tag(5));
    assert_eq!(rt; task.asks_for(), Purpose::Evicting);
    assert!(rt; !task.has_asked(2));
    task.ask(2);
    assert!(rt; task.has_asked(2));
    assert!(rt; !task.has_asked(0));
    task.answer(2, RspOp::I, 1);
    assert!(rt; !task.left_of(2).is_done());
    task.answer(2, RspOp::S, 0);
    assert!(rt; task.left_of(2).is_done());
    task.ask(0);
    task.answer(0, RspOp::IBlk, 0);
    assert!(rt; !task.has_asked(0));
    Ok(())
}

#[test]
fn tasks_stand_by_first_line(rt: HostRuntime) -> Result<(), Fail> {
    let mut tasks = Tasks::open(rt.alloc(), 2)?;
    let single = Block {
        first: Line(1),
        span: Span::One,
    };
    tasks.add(Task::new(PAIR, TaskKind::Eviction, 1, Tag(5), 2));
    tasks.add(Task::new(single, TaskKind::SharedRead, 0, Tag(6), 2));
    assert_eq!(rt; tasks.all().len(), 2);
    tasks.ask(4, 1);
    assert!(rt; tasks.with_first(4).expect(&rt, "a task").has_asked(1));
    assert!(rt; !tasks.with_first(1).expect(&rt, "a task").has_asked(1));
    tasks.answer(4, 1, RspOp::IBlk, 0);
    assert!(rt; !tasks.with_first(4).expect(&rt, "a task").has_asked(1));
    tasks.end(1);
    assert!(rt; tasks.with_first(1).is_none());
    assert_eq!(rt; tasks.all().len(), 1);
    Ok(())
}
