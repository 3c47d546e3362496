// Lines of a script, and their whole replies.
use crate::answer::Answer;
use crate::brief::Brief;
use crate::session::Session;
use routes::hop::Hop;
use std::test::Fail;

#[test]
fn short_and_long_replies(rt: HostRuntime) -> Result<(), Fail> {
    let heap = rt.alloc();
    let mut session = Session::new();
    let short: [(&[u8], Brief); 4] = [
        (b"mesh xy 2 2", Brief::Made(4, 8)),
        (b"link 0", Brief::Ends(0, 1)),
        (b"grid xy 2 2 1 1 100", Brief::Accepted),
        (b"open 0 0 1 10 0.0", Brief::Accepted),
    ];
    for (line, brief) in short {
        assert_eq!(rt;
            session.reply(heap, 1, line),
            Some(Ok(Answer::Brief(brief)))
        );
    }
    let route = Answer::Route([Hop { link: 0, lane: 0 }; 24], 1);
    assert_eq!(rt; session.reply(heap, 5, b"route 0"), Some(Ok(route)));
    assert_eq!(rt;
        session.reply(heap, 6, b"items"),
        Some(Ok(Answer::Brief(Brief::Count(0))))
    );
    assert_eq!(rt; *session.kept(), route);
    assert_eq!(rt; session.reply(heap, 7, b"# nothing"), None);
    Ok(())
}
