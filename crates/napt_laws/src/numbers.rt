//! A law of external numbers.

ghost use Rattle.napt_rules.specs.Prelude.{CandidatesBeginWithTheirFirst, CandidatesAreTheirClass, CandidatesDiffer, BlockCandidatesBegin, BlockCandidatesAreTheBlock, BlockCandidatesDiffer, BlockCandidatesKeepParity};

/// Law: the candidates of a number are the numbers to which it may be mapped, each once:
///
/// - for a port, the ports on its side of 1024 and, if configured, of its parity (RFC 4787, REQ-3
///   (a) and REQ-4; RFC 7857, section 8);
/// - for an identifier, all identifiers (RFC 5508, section 3.1);
/// - with a port block, the numbers of the block (RFC 7422, section 2).
///
/// The first candidate is the number itself or, in a block, the one at the number's place. With a
/// seed, it is the one at the place of a hash (RFC 6056, section 3.3.3).
pub fn candidates_are_the_class()
    ensures begin { CandidatesBeginWithTheirFirst }
    ensures those { CandidatesAreTheirClass }
    ensures differ { CandidatesDiffer }
    ensures block_begins { BlockCandidatesBegin }
    ensures block_is_those { BlockCandidatesAreTheBlock }
    ensures block_differs { BlockCandidatesDiffer }
    ensures block_parity { BlockCandidatesKeepParity }
{}
