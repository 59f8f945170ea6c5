use spi_text::{Span, Text};

/// An identifier, and where it stands.
#[derive(Drop)]
pub struct SWord {
    pub word: Text,
    pub span: Span,
}

/// A message. `Num` stands for a name in the effects of a derivation, by the name's number.
#[cycle(messages)]
pub enum SMsg<'b> {
    /// `x`, which ends at this offset and has as many bytes before it as its word
    Name { to: u32, word: Text },
    /// `x`, which stands anywhere
    Placed { name: &'b SWord },
    /// `()`
    Unit { span: Span },
    /// `(M, N, ..)`, of two messages or more
    Tuple { parts: &'b MsgParts<'b>, span: Span },
    /// `inl M`
    Inl { part: &'b SMsg<'b>, span: Span },
    /// `inr M`
    Inr { part: &'b SMsg<'b>, span: Span },
    /// `{M}N`
    Enc { parts: &'b EncParts<'b>, span: Span },
    /// `hash(M)`, in version 2
    Hash { part: &'b SMsg<'b>, span: Span },
    /// `#n`
    Num { number: u32, span: Span },
}

impl<'b> Drop for SMsg<'b> {
    fn drop(self) {
        match self {
            SMsg::Name { to: _, word: _ } => {}
            SMsg::Placed { name: _ } => {}
            SMsg::Unit { span: _ } => {}
            SMsg::Tuple { parts: _, span: _ } => {}
            SMsg::Inl { part: _, span: _ } => {}
            SMsg::Inr { part: _, span: _ } => {}
            SMsg::Enc { parts: _, span: _ } => {}
            SMsg::Hash { part: _, span: _ } => {}
            SMsg::Num { number: _, span: _ } => {}
        }
    }
}

/// The components of a tuple: the first two, and those behind them.
#[cycle(messages)]
#[derive(Drop)]
pub struct MsgParts<'b> {
    pub first: SMsg<'b>,
    pub second: SMsg<'b>,
    pub more: &'b [SMsg<'b>],
}

/// What a ciphertext holds, and its key.
#[cycle(messages)]
#[derive(Drop)]
pub struct EncParts<'b> {
    pub body: SMsg<'b>,
    pub key: SMsg<'b>,
}

/// A type.
#[cycle(types)]
pub enum STy<'b> {
    /// `Un`
    Un { span: Span },
    /// `()`
    Unit { span: Span },
    /// `(x: T, y: U, .., V)`, of two types or more
    Tuple { parts: &'b TyParts<'b>, span: Span },
    /// `(T + U)`
    Sum { parts: &'b SumParts<'b>, span: Span },
    /// `Key(T)`
    Key { part: &'b STy<'b>, span: Span },
    /// `Nonce [a, b, ..]`
    Nonce { effect: &'b SEffect<'b>, span: Span },
    /// the name of a declared type, which ends at this offset and has as many bytes before it as its word
    Abbr { to: u32, word: Text },
    /// the name of a declared type, which stands anywhere
    Placed { name: &'b SWord },
}

impl<'b> Drop for STy<'b> {
    fn drop(self) {
        match self {
            STy::Un { span: _ } => {}
            STy::Unit { span: _ } => {}
            STy::Tuple { parts: _, span: _ } => {}
            STy::Sum { parts: _, span: _ } => {}
            STy::Key { part: _, span: _ } => {}
            STy::Nonce { effect: _, span: _ } => {}
            STy::Abbr { to: _, word: _ } => {}
            STy::Placed { name: _ } => {}
        }
    }
}

/// The parts of a tuple type: the first with its name, those between, and the last.
#[cycle(types)]
#[derive(Drop)]
pub struct TyParts<'b> {
    pub name: SWord,
    pub first: STy<'b>,
    pub more: &'b [SField<'b>],
    pub last: Last<'b>,
}

/// The two types of a sum.
#[cycle(types)]
#[derive(Drop)]
pub struct SumParts<'b> {
    pub left: STy<'b>,
    pub right: STy<'b>,
}

/// A part of a tuple type between the first and the last: `x: T`.
#[cycle(types)]
pub struct SField<'b> {
    pub name: SWord,
    pub ty: STy<'b>,
}

impl<'b> Drop for SField<'b> {
    fn drop(self) {
        let SField { name: _, ty: _ } = self;
    }
}

/// The last part of a tuple type.
#[cycle(types)]
pub enum Last<'b> {
    /// `T`
    Bare(STy<'b>),
    /// `x: T`, which binds nothing
    Named(&'b SWord, STy<'b>),
}

impl<'b> Drop for Last<'b> {
    fn drop(self) {
        match self {
            Last::Bare(_) => {}
            Last::Named(_, _) => {}
        }
    }
}

/// An atom of an effect.
pub enum SAtom<'b> {
    /// `end M`
    End { label: SMsg<'b>, span: Span },
    /// `check M`
    Check { nonce: SMsg<'b>, span: Span },
    /// `many M`, in version 2
    Many { label: SMsg<'b>, span: Span },
}

impl<'b> Drop for SAtom<'b> {
    fn drop(self) {
        match self {
            SAtom::End { label: _, span: _ } => {}
            SAtom::Check { nonce: _, span: _ } => {}
            SAtom::Many { label: _, span: _ } => {}
        }
    }
}

/// An effect, as the type of a nonce writes it.
#[derive(Drop)]
pub struct SEffect<'b> {
    pub atoms: &'b [SAtom<'b>],
}

/// A process. The parts of its form lie in a place of just their size, so that a small form takes little memory.
#[cycle(processes)]
pub enum SProc<'b> {
    /// `P | Q`
    Par {
        parts: Box<BothParts<'b>>,
        span: Span,
    },
    /// `out M N`
    Out {
        parts: Box<OutParts<'b>>,
        span: Span,
    },
    /// `out M N; P`
    OutThen {
        parts: Box<OutThenParts<'b>>,
        span: Span,
    },
    /// `inp M (x: T); P`
    Inp {
        parts: Box<InpParts<'b>>,
        span: Span,
    },
    /// `repeat inp M (x: T); P`
    Repeat {
        parts: Box<InpParts<'b>>,
        span: Span,
    },
    /// `split M is (x: T, y: U); P`
    Split {
        parts: Box<SplitParts<'b>>,
        span: Span,
    },
    /// `match M is (x: T = N, y: U); P`
    Match {
        parts: Box<MatchParts<'b>>,
        span: Span,
    },
    /// `case M is inl (x: T); P is inr (y: U); Q`
    Case {
        parts: Box<CaseParts<'b>>,
        span: Span,
    },
    /// `decrypt M is {x: T}N; P`
    Decrypt {
        parts: Box<DecryptParts<'b>>,
        span: Span,
    },
    /// `check M is N; P`
    Check {
        parts: Box<CheckParts<'b>>,
        span: Span,
    },
    /// `begin L; P`
    Begin {
        parts: Box<EventParts<'b>>,
        span: Span,
    },
    /// `end L; P`
    End {
        parts: Box<EventParts<'b>>,
        span: Span,
    },
    /// `endmany L; P`, in version 2
    EndMany {
        parts: Box<EventParts<'b>>,
        span: Span,
    },
    /// `cast M is (x: T); P`
    Cast {
        parts: Box<CastParts<'b>>,
        span: Span,
    },
    /// `new (x: T); P`
    New {
        parts: Box<NewParts<'b>>,
        span: Span,
    },
    /// `stop`
    Stop {
        span: Span,
    },
    /// `(P | Q)`
    Group {
        parts: Box<BothParts<'b>>,
        span: Span,
    },
}

impl<'b> Drop for SProc<'b> {
    #[cycle(processes)]
    fn drop(self) {
        match self {
            SProc::Par { parts: _, span: _ } => {}
            SProc::Out { parts: _, span: _ } => {}
            SProc::OutThen { parts: _, span: _ } => {}
            SProc::Inp { parts: _, span: _ } => {}
            SProc::Repeat { parts: _, span: _ } => {}
            SProc::Split { parts: _, span: _ } => {}
            SProc::Match { parts: _, span: _ } => {}
            SProc::Case { parts: _, span: _ } => {}
            SProc::Decrypt { parts: _, span: _ } => {}
            SProc::Check { parts: _, span: _ } => {}
            SProc::Begin { parts: _, span: _ } => {}
            SProc::End { parts: _, span: _ } => {}
            SProc::EndMany { parts: _, span: _ } => {}
            SProc::Cast { parts: _, span: _ } => {}
            SProc::New { parts: _, span: _ } => {}
            SProc::Stop { span: _ } => {}
            SProc::Group { parts: _, span: _ } => {}
        }
    }
}

/// The two processes of a composition.
#[cycle(processes)]
pub struct BothParts<'b> {
    pub first: SProc<'b>,
    pub rest: SProc<'b>,
}

impl<'b> Drop for BothParts<'b> {
    #[cycle(processes)]
    fn drop(self) {
        let BothParts { first: _, rest: _ } = self;
    }
}

/// The messages of an output with nothing behind it.
pub struct OutParts<'b> {
    pub channel: SMsg<'b>,
    pub datum: SMsg<'b>,
}

impl<'b> Drop for OutParts<'b> {
    fn drop(self) {
        let OutParts {
            channel: _,
            datum: _,
        } = self;
    }
}

/// The parts of an output with a process behind it.
#[cycle(processes)]
pub struct OutThenParts<'b> {
    pub channel: SMsg<'b>,
    pub datum: SMsg<'b>,
    pub then: SProc<'b>,
}

impl<'b> Drop for OutThenParts<'b> {
    #[cycle(processes)]
    fn drop(self) {
        let OutThenParts {
            channel: _,
            datum: _,
            then: _,
        } = self;
    }
}

/// The parts of an input, repeated or not.
#[cycle(processes)]
pub struct InpParts<'b> {
    pub channel: SMsg<'b>,
    pub name: SWord,
    pub ty: STy<'b>,
    pub then: SProc<'b>,
}

impl<'b> Drop for InpParts<'b> {
    #[cycle(processes)]
    fn drop(self) {
        let InpParts {
            channel: _,
            name: _,
            ty: _,
            then: _,
        } = self;
    }
}

/// The parts of a split.
#[cycle(processes)]
pub struct SplitParts<'b> {
    pub whole: SMsg<'b>,
    pub left: SWord,
    pub left_ty: STy<'b>,
    pub right: SWord,
    pub right_ty: STy<'b>,
    pub then: SProc<'b>,
}

impl<'b> Drop for SplitParts<'b> {
    #[cycle(processes)]
    fn drop(self) {
        let SplitParts {
            whole: _,
            left: _,
            left_ty: _,
            right: _,
            right_ty: _,
            then: _,
        } = self;
    }
}

/// The parts of a match.
#[cycle(processes)]
pub struct MatchParts<'b> {
    pub whole: SMsg<'b>,
    pub left: SWord,
    pub left_ty: STy<'b>,
    pub equal: SMsg<'b>,
    pub right: SWord,
    pub right_ty: STy<'b>,
    pub then: SProc<'b>,
}

impl<'b> Drop for MatchParts<'b> {
    #[cycle(processes)]
    fn drop(self) {
        let MatchParts {
            whole: _,
            left: _,
            left_ty: _,
            equal: _,
            right: _,
            right_ty: _,
            then: _,
        } = self;
    }
}

/// The parts of a case.
#[cycle(processes)]
pub struct CaseParts<'b> {
    pub whole: SMsg<'b>,
    pub left: SWord,
    pub left_ty: STy<'b>,
    pub on_left: SProc<'b>,
    pub right: SWord,
    pub right_ty: STy<'b>,
    pub on_right: SProc<'b>,
}

impl<'b> Drop for CaseParts<'b> {
    #[cycle(processes)]
    fn drop(self) {
        let CaseParts {
            whole: _,
            left: _,
            left_ty: _,
            on_left: _,
            right: _,
            right_ty: _,
            on_right: _,
        } = self;
    }
}

/// The parts of a decryption.
#[cycle(processes)]
pub struct DecryptParts<'b> {
    pub whole: SMsg<'b>,
    pub name: SWord,
    pub ty: STy<'b>,
    pub key: SMsg<'b>,
    pub then: SProc<'b>,
}

impl<'b> Drop for DecryptParts<'b> {
    #[cycle(processes)]
    fn drop(self) {
        let DecryptParts {
            whole: _,
            name: _,
            ty: _,
            key: _,
            then: _,
        } = self;
    }
}

/// The parts of a check of a nonce.
#[cycle(processes)]
pub struct CheckParts<'b> {
    pub whole: SMsg<'b>,
    pub nonce: SMsg<'b>,
    pub then: SProc<'b>,
}

impl<'b> Drop for CheckParts<'b> {
    #[cycle(processes)]
    fn drop(self) {
        let CheckParts {
            whole: _,
            nonce: _,
            then: _,
        } = self;
    }
}

/// The label of an event, and what goes on behind it.
#[cycle(processes)]
pub struct EventParts<'b> {
    pub label: SMsg<'b>,
    pub then: SProc<'b>,
}

impl<'b> Drop for EventParts<'b> {
    #[cycle(processes)]
    fn drop(self) {
        let EventParts { label: _, then: _ } = self;
    }
}

/// The parts of a cast.
#[cycle(processes)]
pub struct CastParts<'b> {
    pub whole: SMsg<'b>,
    pub name: SWord,
    pub ty: STy<'b>,
    pub then: SProc<'b>,
}

impl<'b> Drop for CastParts<'b> {
    #[cycle(processes)]
    fn drop(self) {
        let CastParts {
            whole: _,
            name: _,
            ty: _,
            then: _,
        } = self;
    }
}

/// The parts of a new name.
#[cycle(processes)]
pub struct NewParts<'b> {
    pub name: SWord,
    pub ty: STy<'b>,
    pub then: SProc<'b>,
}

impl<'b> Drop for NewParts<'b> {
    #[cycle(processes)]
    fn drop(self) {
        let NewParts {
            name: _,
            ty: _,
            then: _,
        } = self;
    }
}

/// A declaration.
pub enum Decl<'b> {
    /// `free a, b, ..;`, of one name or more
    Free {
        first: SWord,
        more: Vec<SWord>,
        span: Span,
    },
    /// `type A = T;`
    Abbr {
        name: SWord,
        ty: STy<'b>,
        span: Span,
    },
}

impl<'b> Drop for Decl<'b> {
    fn drop(self) {
        match self {
            Decl::Free {
                first: _,
                more: _,
                span: _,
            } => {}
            Decl::Abbr {
                name: _,
                ty: _,
                span: _,
            } => {}
        }
    }
}

/// A step of a schedule, by the places of the processes that take it.
#[derive(Drop)]
pub enum SStep {
    /// `act i;`
    Act { place: u32, span: Span },
    /// `talk i j;`
    Talk { from: u32, to: u32, span: Span },
}

/// A use of a rule, with the effect that `ProcSub` writes, and the uses that prove its premises.
pub struct SDeriv<'b> {
    pub rule: SWord,
    pub effect: Option<&'b SEffect<'b>>,
    pub premises: Vec<SDeriv<'b>>,
    pub span: Span,
}

impl<'b> Drop for SDeriv<'b> {
    fn drop(self) {
        let SDeriv {
            rule: _,
            effect: _,
            premises: _,
            span: _,
        } = self;
    }
}

/// A file.
pub struct Tree<'b> {
    /// 1, or 2 where the file begins with `version 2;`
    pub version: u32,
    pub decls: Vec<Decl<'b>>,
    pub process: SProc<'b>,
    pub opponent: Option<SProc<'b>>,
    pub schedule: Option<Vec<SStep>>,
    pub derivation: Option<SDeriv<'b>>,
    pub span: Span,
}

impl<'b> Drop for Tree<'b> {
    fn drop(self) {
        let Tree {
            version: _,
            decls: _,
            process: _,
            opponent: _,
            schedule: _,
            derivation: _,
            span: _,
        } = self;
    }
}
