// The position of the token reader in its line.
ghost use Rattle.std.specs.Prelude.{◌≡◌, ◌<◌, IfOk, IfSome, length, option_map};
ghost use Rattle.list_terms.specs.Steps.{ok_map};
ghost use Rattle.list_terms.specs.Tokens as spec;
ghost use Rattle.list_terms.specs.Tokens.{token_text};
ghost use Rattle.adltoken.specs.Views.{token_view};
ghost use Rattle.adlread.specs.FaultSpans.{StepsOver, first_of_line, line_length};
ghost use Rattle.adlread.specs.FaultSpans as spans;

use adltoken::{Span, TextFault, Token, Tokens};

/// Returns a reader at the first byte of a line.
#[tactic(auto, using(crate::proofs::SpanLaws::span_of_line), unfolding(crate::specs::FaultSpans::line_length, crate::specs::FaultSpans::reached))]
pub fn tokens_of(line: &[u8]) -> Tokens<'_>
    ensures rest { result.rest.now ≡ line.now }
    ensures long { line_length result ≡ length line.now }
    ensures span { spans.reached result ≡ first_of_line line.now }
{
    Tokens::new(line)
}

/// Returns the next token; equal to `Tokens::cut_next`.
#[inline(always)]
#[tactic(auto, using(crate::proofs::SpanLaws::span_of_rest), unfolding(crate::specs::FaultSpans::line_length, crate::specs::FaultSpans::reached))]
pub fn cut_next<'a>(tokens: &mut Tokens<'a>) -> Result<Option<Token<'a>>, TextFault>
    ensures exact { ok_map (λ next. option_map (λ token. (token_view token, tokens.new.rest.now)) next) result
        ≡ spec.token_at tokens.old.rest.now }
    ensures shorter { IfOk result (λ next. IfSome next (λ token.
        length tokens.new.rest.now < length tokens.old.rest.now)) }
    ensures whole { IfOk result (λ next. IfSome next (λ token. token.text.now ≡ token_text (token_view token))) }
    ensures steps { StepsOver tokens.old tokens.new }
{
    tokens.cut_next()
}

/// Returns the byte range to blame for a fault: the last token requested, or the next one if none was requested
/// yet.
#[tactic(auto, unfolding(crate::specs::FaultSpans::reached))]
pub fn reached(tokens: &Tokens<'_>) -> Span
    ensures { result ≡ spans.reached tokens.now }
{
    tokens.stood()
}
