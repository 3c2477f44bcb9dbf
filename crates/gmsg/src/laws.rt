//! Laws of all five kinds of message. Each function does nothing at run time, and its contract
//! states the law. The kinds are the hello (the first line of a `git://` connection), the
//! advertisement, the request, the ls-refs reply and the fetch reply. Each law holds for all
//! parameters of the grammar of a kind, such as the object format and the limits on a message.

ghost use Rattle.std.specs.Prelude.{◌≤◌};
ghost use Rattle.gname.specs.declared.formats.Format.{Format};
ghost use Rattle.ggrammar.specs.Kinds.{AsInManual, CanonicalSays, OneMeaning, SaysWhole};
ghost use Rattle.ggrammar.specs.declared.ends.Ends.{Ends};
ghost use Rattle.ggrammar.specs.declared.limits.Limits.{Limits};
ghost use Rattle.ghello.specs.Hello as hello;
ghost use Rattle.ghello.specs.Adverts as advert;
ghost use Rattle.grequest.specs.Manual as request_manual;
ghost use Rattle.grequest.specs.Requests as request;
ghost use Rattle.grequest.specs.RequestWriting as request_writing;
ghost use Rattle.grequest.specs.WellFormed as request_form;
ghost use Rattle.glsreply.specs.LsManual as ls_reply_manual;
ghost use Rattle.glsreply.specs.LsReplies as ls_reply;
ghost use Rattle.glsreply.specs.WellFormed as ls_reply_form;
ghost use Rattle.gfetchreply.specs.FetchManual as fetch_reply_manual;
ghost use Rattle.gfetchreply.specs.FetchReplies as fetch_reply;
ghost use Rattle.gfetchreply.specs.Values.{max_stream};
ghost use Rattle.gfetchreply.specs.WellFormed as fetch_reply_form;
ghost use Rattle.gmsg.specs.Laws.{NoneBeginsAnother, NoneBeginsAsBoth};

/// Proves that a list of packets encodes at most one message of each kind.
pub fn one_meaning()
    ensures hello { OneMeaning hello.Says }
    ensures advert { OneMeaning advert.Says }
    ensures request { (limits : Limits) (format : Format)
        → OneMeaning (request.Says limits format) }
    ensures ls_reply { (format : Format) (ends : Ends) → OneMeaning (ls_reply.Says format ends) }
    ensures fetch_reply { (reading : fetch_reply.Reading) → OneMeaning (fetch_reply.Says reading) }
{
    ghello::laws::one_meaning();
    grequest::laws::one_meaning();
    glsreply::laws::one_meaning();
    gfetchreply::laws::one_meaning();
}

/// Proves that no message is a proper prefix of another message of the same kind, as packets or as
/// bytes. A reader therefore finds the end of a message without reading the bytes after it.
pub fn prefix_free()
    ensures hello { NoneBeginsAnother hello.judge }
    ensures advert { NoneBeginsAnother advert.judge }
    ensures request { (limits : Limits) (format : Format)
        → NoneBeginsAnother (request.judge limits format) }
    ensures ls_reply { (format : Format) (ends : Ends)
        → NoneBeginsAnother (ls_reply.judge format ends) }
    ensures fetch_reply { (reading : fetch_reply.Reading)
        → NoneBeginsAnother (fetch_reply.judge reading) }
{
    ghello::laws::prefix_free();
    grequest::laws::prefix_free();
    glsreply::laws::prefix_free();
    gfetchreply::laws::prefix_free();
}

/// Proves that no byte string begins with both an ls-refs reply and a fetch reply, for any
/// parameters of the two readers. A client that awaits one kind of reply therefore rejects a reply
/// of the other kind.
pub fn replies_differ()
    ensures { (format : Format) (ends : Ends) (reading : fetch_reply.Reading)
        → NoneBeginsAsBoth (ls_reply.judge format ends) (fetch_reply.judge reading) }
{
    manual();
    gpkt::laws::one_begins();
}

/// Proves that the grammars of advertisements, requests and replies accept exactly the messages
/// that Git's manual and the limits allow. Each message has the meaning that the manual states
/// (gitprotocol-v2(5), "Capability Advertisement", "Command Request", "ls-refs" and "fetch"). A
/// hello is exactly one packet (gitprotocol-pack(5), "Git Transport").
pub fn manual()
    ensures hello { SaysWhole hello.judge hello.Says }
    ensures advert { AsInManual advert.Says advert.IsAdvert }
    ensures request { (limits : Limits) (format : Format)
        → AsInManual (request.Says limits format) (request_manual.IsRequest limits format) }
    ensures ls_reply { (format : Format) (ends : Ends) → AsInManual (ls_reply.Says format ends)
        (ls_reply_manual.IsLsReply format ends) }
    ensures fetch_reply { (reading : fetch_reply.Reading) → AsInManual (fetch_reply.Says reading)
        (fetch_reply_manual.IsFetchReply reading) }
{
    ghello::laws::manual();
    grequest::laws::manual();
    glsreply::laws::manual();
    gfetchreply::laws::manual();
}

/// Proves that the packets written for a message encode that message, and that each payload fits
/// into a packet. For fetch replies, the law holds for each size limit that a
/// [`StreamLimit`](crate::StreamLimit) can have.
pub fn canonical_says()
    ensures hello { CanonicalSays hello.Says hello.IsHello hello.IsCanonical }
    ensures advert { CanonicalSays advert.Says advert.AreCapabilities advert.IsCanonical }
    ensures request { (limits : Limits) (format : Format)
        → CanonicalSays (request.Says limits format) (request_form.IsAsked limits format)
        (request_writing.IsCanonicalRequest format) }
    ensures ls_reply { (format : Format) (ends : Ends) → CanonicalSays (ls_reply.Says format ends)
        (ls_reply_form.IsLsReplyIn format) (ls_reply.IsCanonicalReply ends) }
    ensures fetch_reply { (reading : fetch_reply.Reading) → reading.limit ≤ max_stream
        → CanonicalSays (fetch_reply.Says reading) (fetch_reply_form.IsReplyIn reading)
        (fetch_reply.IsCanonical reading.ends) }
{
    ghello::laws::canonical_says();
    grequest::laws::canonical_says();
    glsreply::laws::canonical_says();
    gfetchreply::laws::canonical_says();
}

/// A shorter name for [`canonical_says`].
pub use self::canonical_says as canon_says;
