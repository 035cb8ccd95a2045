// Recognition of keywords.
ghost use Rattle.std.specs.Prelude.{◌≡◌};
ghost use Rattle.list_terms.specs.EntryLines as lines;
ghost use Rattle.list_terms.specs.Fields as fields;
ghost use Rattle.adltoken.specs.Views.{token_view};

use crate::names::is_same_name;
use crate::tokens::Token;
use list_terms::{EntryKeyword, TokenKind};

impl Token<'_> {
    /// Returns whether this token is the given keyword. Letters match in either case.
    pub fn is_keyword(&self, name: &[u8]) -> bool
        ensures { result ≡ fields.is_keyword name.now (token_view self.now) }
    {
        match self.kind {
            TokenKind::Keyword => is_same_name(self.content, name),
            TokenKind::Quoted | TokenKind::Word => false,
        }
    }

    /// Returns the kind of entry line that this keyword starts, or `None` if it isn't `(Infade)`, `(Outfade)`,
    /// `(Rem)` or `(Gain)`.
    #[tactic(auto, unfolding(list_terms::specs::EntryLines::entry_keyword))]
    pub fn entry_keyword(&self) -> Option<EntryKeyword>
        ensures { result ≡ lines.entry_keyword (token_view self.now) }
    {
        if self.is_keyword(b"Infade") {
            Some(EntryKeyword::Infade)
        } else if self.is_keyword(b"Outfade") {
            Some(EntryKeyword::Outfade)
        } else if self.is_keyword(b"Rem") {
            Some(EntryKeyword::Rem)
        } else if self.is_keyword(b"Gain") {
            Some(EntryKeyword::Gain)
        } else {
            None
        }
    }
}
