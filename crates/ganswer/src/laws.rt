//! Laws about answers and changes. Each function does nothing at run time, and its contract states
//! the law.

ghost use Rattle.gobject.specs.Packs.{MayPack};
ghost use Rattle.ganswer.specs.Laws.{AcksAreCommon, AdvertsWelcome, AnswersAreOne, FetchAnswersFit, LsAnswersAreHeld, LsAnswersAreOne, LsAnswersFit, LsRequestsHaveAnswers, PacksAreEnough, ServersGrow, ServesWhatIsHeld};

use ggraph::graph_laws::{
    commons_are_held, one_list_to_send, peels_to_one, positions_are_nodes, sending_is_enough,
    sent_are_entries,
};
use ggraph::{Faithful, Packer};
use gname::laws::head_is_a_name;
use std::alloc::Allocator;

/// Proves that a client of the same object format can read and accept a server's advertisement, and
/// may then request the name of an unborn HEAD (gitprotocol-v2(5), "Capability Advertisement").
pub fn adverts_welcome()
    ensures { AdvertsWelcome }
{}

/// Proves that a server has exactly one answer to each ls-refs request.
pub fn ls_requests_have_one_answer<A: Allocator + Copy>()
    ensures exists { LsRequestsHaveAnswers A }
    ensures one { LsAnswersAreOne A }
{
    peels_to_one::<A>();
}

/// Proves that each answer to an ls-refs request is a well-formed message. The ids of the answer
/// have the server's object format, the ref names are valid, and the number of lines is within the
/// limit of a reply.
pub fn ls_answers_fit<A: Allocator + Copy>()
    ensures { LsAnswersFit A }
{
    positions_are_nodes::<A>();
    head_is_a_name();
}

/// Proves that the server holds the id of each line of an answer to an ls-refs request.
#[tactic(auto, using(crate::proofs::LawLemmas::ls_answers_are_held))]
pub fn ls_answers_are_held<A: Allocator + Copy>()
    ensures { LsAnswersAreHeld A }
{}

/// Proves that a client can read the answer to its fetch request. The client must use the server's
/// object format, and the pack and the number of haves must be within the client's limits.
pub fn fetch_answers_fit<A: Allocator + Copy, K: Packer<A>>()
    ensures { (packer : K) → FetchAnswersFit A (MayPack (K.packs packer)) }
{
    positions_are_nodes::<A>();
}

/// Proves that an answer acknowledges only haves that the server holds, and each have at most once.
pub fn acks_are_common<A: Allocator + Copy, K: Packer<A>>()
    ensures { (packer : K) → AcksAreCommon A (MayPack (K.packs packer)) }
{
    commons_are_held::<A>();
}

/// Proves that the pack of an answer consists of entries of the server's graph, and suffices for
/// the client. Consider a client that holds the whole ancestry of each have, and agrees with the
/// server about every object that both hold. Once the client has inserted the entries, it holds
/// every object that the wants reach at the server.
pub fn packs_are_enough<A: Allocator + Copy, K: Packer<A>>()
    ensures { (packer : K) → PacksAreEnough A (MayPack (K.packs packer)) }
{
    commons_are_held::<A>();
    sent_are_entries::<A>();
    sending_is_enough::<A>();
}

/// Proves that, if the server holds the wants of a request, the request fails only if the packer
/// fails or memory runs out.
pub fn held_wants_are_served<A: Allocator + Copy, K: Packer<A>>()
    ensures { (packer : K) → ServesWhatIsHeld A (K.pack_fails packer) }
{
    sent_are_entries::<A>();
}

/// Proves that a server with a faithful packer has at most one answer to each request. The request
/// determines the objects to send, and a faithful packer has only one pack for each list of
/// objects.
pub fn answers_are_one<A: Allocator + Copy, K: Faithful<A>>(packer: &K)
    ensures { AnswersAreOne A (MayPack (K.packs packer.now)) }
{
    peels_to_one::<A>();
    one_list_to_send::<A>();
    sent_are_entries::<A>();
    packer.loses_nothing();
}

/// Proves that changes to a server never remove objects, and that only
/// [`Server::add`](crate::Server::add) adds objects.
#[tactic(auto, using(crate::proofs::LawLemmas::servers_grow))]
pub fn servers_grow<A: Allocator + Copy>()
    ensures { ServersGrow A }
{}
