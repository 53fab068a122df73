//! A program of sets and one of maps, each with a replica and its derivation.

/// Sets of words as rising lists, with a replica.
pub(crate) const SETS: &[u8] =
    b"data List<A> { Nil, Cons(A, List<A>) }\ndef union(a: List<Word>, b: List<Word>): List<Word> with comm, idem, assoc {\nmatch a {\nNil => b,\n\
Cons(x, xs) => match b {\nNil => a,\nCons(y, ys) => match wle(x, y) {\nTrue => match wle(y, x) {\nTrue => Cons<Word>(x, union(xs, ys)),\n\
False => Cons<Word>(x, union(xs, b))\n},\nFalse => Cons<Word>(y, union(a, ys))\n}\n}\n}\n}\nreplica s: List<Word> from Nil<Word> by union\n";

/// The front of the derivation that the union of sets is commutative, idempotent and associative.
pub(crate) const SETS_SHOWN: &[u8] =
    b"goal 0 on 0 1\ncase 0\nstep a0l / unfold\nstep a0l / select\ncase 1\nstep a0r / unfold\nstep a0r / select\nsame 0\nstep a0r / unfold\n\
step a0r / select\nstep a0r / select\nsame 0\ncase 1\nstep a0l / unfold\nstep a0l / select\nstep a0l / select\nstep a0r / unfold\nstep a0r / select\n\
same 0\nsplit wle($2,$4)\nnote wle.conn [] [] [$2,$4]\nstep a0l / fact 0 lr\nsame 0\nstep a0l / unfold\nstep a0l / select\nstep a0l / select\n\
step a0l /0 fact 0 lr\nstep a0l / select\nstep a0r / unfold\nstep a0r / select\nstep a0r / select\nstep a0r /0 fact 1 lr\nstep a0r / select\n\
step a0r /0 fact 0 lr\nstep a0r / select\nhyp [Cons<Word>($2,$3),$5]\nstep a0l /1 fact 2 lr\nsame 0\nsplit wle($4,$2)\nnote wle.conn [] [] [$4,$2]\n\
step a0l / fact 1 lr\nsame 0\nstep f0l / fact 2 lr\nstep a0l / unfold\nstep a0l / select\nstep a0l / select\nstep a0l /0 fact 2 lr\n\
step a0l / select\nstep a0l /0 fact 1 lr\nstep a0l / select\nstep a0r / unfold\nstep a0r / select\nstep a0r / select\nstep a0r /0 fact 1 lr\n\
step a0r / select\nhyp [$3,Cons<Word>($4,$5)]\nstep a0l /1 fact 3 lr\nsame 0\nstep a0l / unfold\nstep a0l / select\nstep a0l / select\n\
step a0l /0 fact 0 lr\nstep a0l / select\nstep a0l /0 fact 1 lr\nstep a0l / select\nstep a0r / unfold\nstep a0r / select\nstep a0r / select\n\
step a0r /0 fact 1 lr\nstep a0r / select\nstep a0r /0 fact 0 lr\nstep a0r / select\nnote wle.antisym [] [] [$2,$4]\nstep a0l / fact 0 lr\nsame 0\n\
step a0l / fact 1 lr\nsame 0\nstep a0l /0 fact 2 lr\nhyp [$3,$5]\nstep a0l /1 fact 3 lr\nsame 0\ngoal 1 on 0\ncase 0\nstep a0l / unfold\n\
step a0l / select\nsame 0\nsplit wle($1,$1)\nnote wle.conn [] [] [$1,$1]\nstep a0l / fact 0 lr\nsame 0\nstep f0l / fact 1 lr\nclash 0\n\
step a0l / unfold\nstep a0l / select\nstep a0l / select\nstep a0l /0 fact 0 lr\nstep a0l / select\nstep a0l /0 fact 0 lr\nstep a0l / select\n\
hyp [$2]\nstep a0l /1 fact 1 lr\nsame 0\ngoal 2 on 0 1 2\ncase 0\nstep a0l /0 unfold\nstep a0l /0 select\nstep a0r / unfold\nstep a0r / select\n\
same 0\ncase 1\nstep a0l /0 unfold\nstep a0l /0 select\nstep a0l /0 select\nstep a0r /1 unfold\nstep a0r /1 select\nsame 0\nsplit wle($3,$5)\n\
note wle.conn [] [] [$3,$5]\nstep a0l / fact 0 lr\nsame 0\nstep a0l /0 unfold\nstep a0l /0 select\nstep a0l /0 select\nstep a0l /0/0 fact 0 lr\n\
step a0l /0 select\ncase 2\nstep a0l / unfold\nstep a0l / select\nstep a0l / select\nstep a0r /1 unfold\nstep a0r /1 select\nstep a0r /1 select\n\
step a0r / unfold\nstep a0r / select\nstep a0r / select\nstep a0r /0 fact 0 lr\nstep a0r / select\nsame 0\nsplit wle($5,$7)\n\
note wle.conn [] [] [$5,$7]\nstep a0l / fact 2 lr\nsame 0\nstep a0l / unfold\nstep a0l / select\nstep a0l / select\nstep a0l /0 fact 2 lr\n\
step a0l / select\nstep a0r /1 unfold\nstep a0r /1 select\nstep a0r /1 select\nstep a0r /1/0 fact 2 lr\nstep a0r /1 select\nsplit wle($3,$7)\n\
note wle.conn [] [] [$3,$7]\nstep a0l / fact 4 lr\nsame 0\nstep a0r / unfold\nstep a0r / select\nstep a0r / select\nstep a0r /0 fact 4 lr\n\
step a0r / select\nhyp [Cons<Word>($3,$4),Cons<Word>($5,$6),$8]\nstep a0r /1 fact 6 rl\nstep a0r /1/0 unfold\nstep a0r /1/0 select\n\
step a0r /1/0 select\nstep a0r /1/0/0 fact 0 lr\nstep a0r /1/0 select\nsame 0\nnote wle.trans [] [] [$5,$3,$7]\nstep a0l / fact 1 lr\nsame 0\n\
step a0l / fact 4 lr\nsame 0\nstep f5l / fact 2 lr\nclash 5\nsplit wle($7,$5)\nnote wle.conn [] [] [$7,$5]\nstep a0l / fact 3 lr\nsame 0\n\
step f2l / fact 4 lr\nstep a0l / unfold\nstep a0l / select\nstep a0l / select\nstep a0l /0 fact 4 lr\nstep a0l / select\nstep a0l /0 fact 3 lr\n\
step a0l / select\nstep a0r /1 unfold\nstep a0r /1 select\nstep a0r /1 select\nstep a0r /1/0 fact 4 lr\nstep a0r /1 select\nstep a0r /1/0 fact 3 lr\n\
step a0r /1 select\nstep a0r / unfold\nstep a0r / select\nstep a0r / select\nstep a0r /0 fact 0 lr\nstep a0r / select\n\
hyp [Cons<Word>($3,$4),$6,Cons<Word>($7,$8)]\nstep a0l /1 fact 5 lr\nsame 0\nstep a0l / unfold\nstep a0l / select\nstep a0l / select\n\
step a0l /0 fact 2 lr\nstep a0l / select\nstep a0l /0 fact 3 lr\nstep a0l / select\nstep a0r /1 unfold\nstep a0r /1 select\nstep a0r /1 select\n\
step a0r /1/0 fact 2 lr\nstep a0r /1 select\nstep a0r /1/0 fact 3 lr\nstep a0r /1 select\nstep a0r / unfold\nstep a0r / select\nstep a0r / select\n\
step a0r /0 fact 0 lr\nstep a0r / select\nhyp [Cons<Word>($3,$4),$6,$8]\nstep a0l /1 fact 4 lr\nsame 0\nsplit wle($5,$3)\n\
note wle.conn [] [] [$5,$3]\nstep a0l / fact 1 lr\nsame 0\nstep f0l / fact 2 lr\nstep a0l /0 unfold\nstep a0l /0 select\nstep a0l /0 select\n\
step a0l /0/0 fact 2 lr\nstep a0l /0 select\nstep a0l /0/0 fact 1 lr\nstep a0l /0 select\ncase 2\nstep a0l / unfold\nstep a0l / select\n\
step a0l / select\nstep a0r /1 unfold\nstep a0r /1 select\nstep a0r /1 select\nstep a0r / unfold\nstep a0r / select\nstep a0r / select\n\
step a0r /0 fact 2 lr\nstep a0r / select\nstep a0r /0 fact 1 lr\nstep a0r / select\nsame 0\nsplit wle($3,$7)\nnote wle.conn [] [] [$3,$7]\n\
step a0l / fact 3 lr\nsame 0\nstep a0l / unfold\nstep a0l / select\nstep a0l / select\nstep a0l /0 fact 3 lr\nstep a0l / select\nsplit wle($5,$7)\n\
note wle.conn [] [] [$5,$7]\nstep a0l / fact 5 lr\nsame 0\nstep a0r /1 unfold\nstep a0r /1 select\nstep a0r /1 select\nstep a0r /1/0 fact 5 lr\n\
step a0r /1 select\nstep a0r / unfold\nstep a0r / select\nstep a0r / select\nstep a0r /0 fact 3 lr\nstep a0r / select\n\
hyp [Cons<Word>($3,$4),Cons<Word>($5,$6),$8]\nstep a0r /1 fact 7 rl\nstep a0r /1/0 unfold\nstep a0r /1/0 select\nstep a0r /1/0 select\n\
step a0r /1/0/0 fact 2 lr\nstep a0r /1/0 select\nstep a0r /1/0/0 fact 1 lr\nstep a0r /1/0 select\nsame 0\nnote wle.trans [] [] [$3,$5,$7]\n\
step a0l / fact 2 lr\nsame 0\nstep a0l / fact 5 lr\nsame 0\nstep f6l / fact 3 lr\nclash 6\nsplit wle($7,$3)\nnote wle.conn [] [] [$7,$3]\n\
step a0l / fact 4 lr\nsame 0\nstep f3l / fact 5 lr\nstep a0l / unfold\nstep a0l / select\nstep a0l / select\nstep a0l /0 fact 5 lr\n\
step a0l / select\nstep a0l /0 fact 4 lr\nstep a0l / select\nsplit wle($5,$7)\nnote wle.conn [] [] [$5,$7]\nstep a0l / fact 6 lr\nsame 0\n\
step a0r /1 unfold\nstep a0r /1 select\nstep a0r /1 select\nstep a0r /1/0 fact 6 lr\nstep a0r /1 select\nstep a0r / unfold\nstep a0r / select\n";

/// The rest of that derivation.
pub(crate) const SETS_SHOWN_ON: &[u8] =
    b"step a0r / select\nstep a0r /0 fact 5 lr\nstep a0r / select\nstep a0r /0 fact 4 lr\nstep a0r / select\nhyp [$4,Cons<Word>($5,$6),Cons<Word>($7,$8)]\n\
step a0l /1 fact 8 lr\nstep a0l /1/1 unfold\nstep a0l /1/1 select\nstep a0l /1/1 select\nstep a0l /1/1/0 fact 6 lr\nstep a0l /1/1 select\nsame 0\n\
split wle($7,$5)\nnote wle.conn [] [] [$7,$5]\nstep a0l / fact 7 lr\nsame 0\nstep f6l / fact 8 lr\nstep a0r /1 unfold\nstep a0r /1 select\n\
step a0r /1 select\nstep a0r /1/0 fact 8 lr\nstep a0r /1 select\nstep a0r /1/0 fact 7 lr\nstep a0r /1 select\nstep a0r / unfold\nstep a0r / select\n\
step a0r / select\nstep a0r /0 fact 2 lr\nstep a0r / select\nstep a0r /0 fact 1 lr\nstep a0r / select\nhyp [$4,Cons<Word>($5,$6),Cons<Word>($7,$8)]\n\
step a0l /1 fact 9 lr\nstep a0l /1/1 unfold\nstep a0l /1/1 select\nstep a0l /1/1 select\nstep a0l /1/1/0 fact 8 lr\nstep a0l /1/1 select\n\
step a0l /1/1/0 fact 7 lr\nstep a0l /1/1 select\nsame 0\nstep a0r /1 unfold\nstep a0r /1 select\nstep a0r /1 select\nstep a0r /1/0 fact 6 lr\n\
step a0r /1 select\nstep a0r /1/0 fact 7 lr\nstep a0r /1 select\nstep a0r / unfold\nstep a0r / select\nstep a0r / select\nstep a0r /0 fact 2 lr\n\
step a0r / select\nstep a0r /0 fact 1 lr\nstep a0r / select\nhyp [$4,Cons<Word>($5,$6),Cons<Word>($7,$8)]\nstep a0l /1 fact 8 lr\n\
step a0l /1/1 unfold\nstep a0l /1/1 select\nstep a0l /1/1 select\nstep a0l /1/1/0 fact 6 lr\nstep a0l /1/1 select\nstep a0l /1/1/0 fact 7 lr\n\
step a0l /1/1 select\nsame 0\nstep a0l / unfold\nstep a0l / select\nstep a0l / select\nstep a0l /0 fact 3 lr\nstep a0l / select\n\
step a0l /0 fact 4 lr\nstep a0l / select\nsplit wle($5,$7)\nnote wle.conn [] [] [$5,$7]\nstep a0l / fact 5 lr\nsame 0\nstep a0r /1 unfold\n\
step a0r /1 select\nstep a0r /1 select\nstep a0r /1/0 fact 5 lr\nstep a0r /1 select\nstep a0r / unfold\nstep a0r / select\nstep a0r / select\n\
step a0r /0 fact 3 lr\nstep a0r / select\nstep a0r /0 fact 4 lr\nstep a0r / select\nhyp [$4,Cons<Word>($5,$6),$8]\nstep a0l /1 fact 7 lr\nsame 0\n\
note wle.trans [] [] [$5,$7,$3]\nstep a0l / fact 5 lr\nsame 0\nstep a0l / fact 4 lr\nsame 0\nstep f6l / fact 1 lr\nclash 6\nstep a0l /0 unfold\n\
step a0l /0 select\nstep a0l /0 select\nstep a0l /0/0 fact 0 lr\nstep a0l /0 select\nstep a0l /0/0 fact 1 lr\nstep a0l /0 select\ncase 2\n\
step a0l / unfold\nstep a0l / select\nstep a0l / select\nstep a0r /1 unfold\nstep a0r /1 select\nstep a0r /1 select\nstep a0r / unfold\n\
step a0r / select\nstep a0r / select\nstep a0r /0 fact 0 lr\nstep a0r / select\nstep a0r /0 fact 1 lr\nstep a0r / select\nsame 0\nsplit wle($3,$7)\n\
note wle.conn [] [] [$3,$7]\nstep a0l / fact 2 lr\nsame 0\nstep a0l / unfold\nstep a0l / select\nstep a0l / select\nstep a0l /0 fact 2 lr\n\
step a0l / select\nsplit wle($5,$7)\nnote wle.conn [] [] [$5,$7]\nstep a0l / fact 4 lr\nsame 0\nstep a0r /1 unfold\nstep a0r /1 select\n\
step a0r /1 select\nstep a0r /1/0 fact 4 lr\nstep a0r /1 select\nstep a0r / unfold\nstep a0r / select\nstep a0r / select\nstep a0r /0 fact 2 lr\n\
step a0r / select\nhyp [Cons<Word>($3,$4),Cons<Word>($5,$6),$8]\nstep a0r /1 fact 6 rl\nstep a0r /1/0 unfold\nstep a0r /1/0 select\n\
step a0r /1/0 select\nstep a0r /1/0/0 fact 0 lr\nstep a0r /1/0 select\nstep a0r /1/0/0 fact 1 lr\nstep a0r /1/0 select\nsame 0\n\
note wle.trans [] [] [$3,$5,$7]\nstep a0l / fact 0 lr\nsame 0\nstep a0l / fact 4 lr\nsame 0\nstep f5l / fact 2 lr\nclash 5\nsplit wle($7,$3)\n\
note wle.conn [] [] [$7,$3]\nstep a0l / fact 3 lr\nsame 0\nstep f2l / fact 4 lr\nstep a0l / unfold\nstep a0l / select\nstep a0l / select\n\
step a0l /0 fact 4 lr\nstep a0l / select\nstep a0l /0 fact 3 lr\nstep a0l / select\nsplit wle($5,$7)\nnote wle.conn [] [] [$5,$7]\n\
step a0l / fact 5 lr\nsame 0\nstep a0r /1 unfold\nstep a0r /1 select\nstep a0r /1 select\nstep a0r /1/0 fact 5 lr\nstep a0r /1 select\n\
step a0r / unfold\nstep a0r / select\nstep a0r / select\nstep a0r /0 fact 4 lr\nstep a0r / select\nstep a0r /0 fact 3 lr\nstep a0r / select\n\
note wle.trans [] [] [$7,$5,$3]\nstep a0l / fact 6 lr\nsame 0\nstep a0l / fact 1 lr\nsame 0\nstep f7l / fact 3 lr\nclash 7\nsplit wle($7,$5)\n\
note wle.conn [] [] [$7,$5]\nstep a0l / fact 6 lr\nsame 0\nstep f5l / fact 7 lr\nstep a0r /1 unfold\nstep a0r /1 select\nstep a0r /1 select\n\
step a0r /1/0 fact 7 lr\nstep a0r /1 select\nstep a0r /1/0 fact 6 lr\nstep a0r /1 select\nstep a0r / unfold\nstep a0r / select\nstep a0r / select\n\
step a0r /0 fact 0 lr\nstep a0r / select\nstep a0r /0 fact 1 lr\nstep a0r / select\nhyp [$4,$6,Cons<Word>($7,$8)]\nstep a0l /1 fact 8 lr\nsame 0\n\
step a0r /1 unfold\nstep a0r /1 select\nstep a0r /1 select\nstep a0r /1/0 fact 5 lr\nstep a0r /1 select\nstep a0r /1/0 fact 6 lr\nstep a0r /1 select\n\
step a0r / unfold\nstep a0r / select\nstep a0r / select\nstep a0r /0 fact 0 lr\nstep a0r / select\nstep a0r /0 fact 1 lr\nstep a0r / select\n\
note wle.trans [] [] [$7,$5,$3]\nstep a0l / fact 6 lr\nsame 0\nstep a0l / fact 1 lr\nsame 0\nstep f7l / fact 3 lr\nclash 7\nstep a0l / unfold\n\
step a0l / select\nstep a0l / select\nstep a0l /0 fact 2 lr\nstep a0l / select\nstep a0l /0 fact 3 lr\nstep a0l / select\nsplit wle($5,$7)\n\
note wle.conn [] [] [$5,$7]\nstep a0l / fact 4 lr\nsame 0\nstep a0r /1 unfold\nstep a0r /1 select\nstep a0r /1 select\nstep a0r /1/0 fact 4 lr\n\
step a0r /1 select\nstep a0r / unfold\nstep a0r / select\nstep a0r / select\nstep a0r /0 fact 2 lr\nstep a0r / select\nstep a0r /0 fact 3 lr\n\
step a0r / select\nnote wle.trans [] [] [$5,$3,$7]\nstep a0l / fact 1 lr\nsame 0\nstep a0l / fact 2 lr\nsame 0\nstep f6l / fact 4 lr\nclash 6\n\
split wle($7,$5)\nnote wle.conn [] [] [$7,$5]\nstep a0l / fact 5 lr\nsame 0\nstep f4l / fact 6 lr\nstep a0r /1 unfold\nstep a0r /1 select\n\
step a0r /1 select\nstep a0r /1/0 fact 6 lr\nstep a0r /1 select\nstep a0r /1/0 fact 5 lr\nstep a0r /1 select\nstep a0r / unfold\nstep a0r / select\n\
step a0r / select\nstep a0r /0 fact 0 lr\nstep a0r / select\nstep a0r /0 fact 1 lr\nstep a0r / select\nnote wle.trans [] [] [$7,$3,$5]\n\
step a0l / fact 3 lr\nsame 0\nstep a0l / fact 0 lr\nsame 0\nstep f7l / fact 5 lr\nclash 7\nstep a0r /1 unfold\nstep a0r /1 select\n\
step a0r /1 select\nstep a0r /1/0 fact 4 lr\nstep a0r /1 select\nstep a0r /1/0 fact 5 lr\nstep a0r /1 select\nstep a0r / unfold\nstep a0r / select\n\
step a0r / select\nstep a0r /0 fact 0 lr\nstep a0r / select\nstep a0r /0 fact 1 lr\nstep a0r / select\nhyp [$4,$6,$8]\nstep a0l /1 fact 6 lr\nsame 0\n";

/// Maps of words with the larger of two values, and a replica.
pub(crate) const MAPS: &[u8] =
    b"data Map<V> { Empty, Bind(Word, V, Map<V>) }\ndef wmax(a: Word, b: Word): Word with comm, assoc, sel { match wle(a, b) { False => a, True => b } }\n\
def join<V>(f: fn(V, V) -> V with comm, assoc, idem, a: Map<V>, b: Map<V>): Map<V> with comm, idem, assoc {\nmatch a {\nEmpty => b,\n\
Bind(x, u, xs) => match b {\nEmpty => a,\nBind(y, v, ys) => match wle(x, y) {\nTrue => match wle(y, x) {\n\
True => Bind<V>(x, f(u, v), join<V>(f, xs, ys)),\nFalse => Bind<V>(x, u, join<V>(f, xs, b))\n},\nFalse => Bind<V>(y, v, join<V>(f, a, ys))\n}\n}\n}\n\
}\nlemma both(a: Map<Word>, b: Map<Word>): join<Word>(wmax, a, b) = join<Word>(wmax, b, a)\n\
replica g: Map<Word> from Empty<Word> by join<Word>(wmax)\n";

/// The front of the derivation that the join of maps is commutative, idempotent and associative where that of values is.
pub(crate) const MAPS_SHOWN: &[u8] =
    b"goal 0 on 0 1\nsplit wle($0,$1)\nnote wle.conn [] [] [$0,$1]\nstep a0l / fact 0 lr\nsame 0\nstep a0l / unfold\nstep a0l /0 fact 0 lr\n\
step a0l / select\nstep a0r / unfold\nstep a0r /0 fact 1 lr\nstep a0r / select\nsame 0\nstep a0l / unfold\nstep a0l /0 fact 0 lr\nstep a0l / select\n\
split wle($1,$0)\nnote wle.conn [] [] [$1,$0]\nstep a0l / fact 1 lr\nsame 0\nstep f0l / fact 2 lr\nstep a0r / unfold\nstep a0r /0 fact 1 lr\n\
step a0r / select\nsame 0\nstep a0r / unfold\nstep a0r /0 fact 1 lr\nstep a0r / select\nnote wle.antisym [] [] [$1,$0]\nstep a0l / fact 1 lr\nsame 0\n\
step a0l / fact 0 lr\nsame 0\nstep a0l / fact 2 lr\nsame 0\ngoal 1 on 0 1 2\nsplit wle($0,$1)\nnote wle.conn [] [] [$0,$1]\nstep a0l / fact 0 lr\n\
same 0\nstep a0l /0 unfold\nstep a0l /0/0 fact 0 lr\nstep a0l /0 select\nsplit wle($0,$2)\nnote wle.conn [] [] [$0,$2]\nstep a0l / fact 2 lr\nsame 0\n\
step a0l / unfold\nstep a0l /0 fact 2 lr\nstep a0l / select\nsplit wle($1,$2)\nnote wle.conn [] [] [$1,$2]\nstep a0l / fact 4 lr\nsame 0\n\
step a0r /1 unfold\nstep a0r /1/0 fact 4 lr\nstep a0r /1 select\nstep a0r / unfold\nstep a0r /0 fact 0 lr\nstep a0r / select\nsame 0\n\
step a0r /1 unfold\nstep a0r /1/0 fact 4 lr\nstep a0r /1 select\nstep a0r / unfold\nstep a0r /0 fact 2 lr\nstep a0r / select\nsame 0\n\
step a0l / unfold\nstep a0l /0 fact 2 lr\nstep a0l / select\nsplit wle($1,$2)\nnote wle.conn [] [] [$1,$2]\nstep a0l / fact 3 lr\nsame 0\n\
step a0r /1 unfold\nstep a0r /1/0 fact 3 lr\nstep a0r /1 select\nstep a0r / unfold\nstep a0r /0 fact 0 lr\nstep a0r / select\n\
note wle.trans [] [] [$0,$2,$1]\nstep a0l / fact 2 lr\nsame 0\nstep a0l / fact 4 lr\nsame 0\nstep f5l / fact 0 lr\nclash 5\nstep a0r /1 unfold\n\
step a0r /1/0 fact 3 lr\nstep a0r /1 select\nstep a0r / unfold\nstep a0r /0 fact 2 lr\nstep a0r / select\nsame 0\nstep a0l /0 unfold\n\
step a0l /0/0 fact 0 lr\nstep a0l /0 select\nsplit wle($1,$2)\nnote wle.conn [] [] [$1,$2]\nstep a0l / fact 1 lr\nsame 0\nstep a0l / unfold\n\
step a0l /0 fact 1 lr\nstep a0l / select\nstep a0r /1 unfold\nstep a0r /1/0 fact 1 lr\nstep a0r /1 select\nstep a0r / unfold\nstep a0r /0 fact 0 lr\n\
step a0r / select\nsame 0\nstep a0l / unfold\nstep a0l /0 fact 1 lr\nstep a0l / select\nstep a0r /1 unfold\nstep a0r /1/0 fact 1 lr\n\
step a0r /1 select\nsplit wle($0,$2)\nnote wle.conn [] [] [$0,$2]\nstep a0l / fact 2 lr\nsame 0\nstep a0r / unfold\nstep a0r /0 fact 2 lr\n\
step a0r / select\nnote wle.trans [] [] [$0,$1,$2]\nstep a0l / fact 0 lr\nsame 0\nstep a0l / fact 1 lr\nsame 0\nstep f4l / fact 2 lr\nclash 4\n\
step a0r / unfold\nstep a0r /0 fact 2 lr\nstep a0r / select\nsame 0\ngoal 2 on 0 1\nsplit wle($0,$1)\nnote wle.conn [] [] [$0,$1]\n\
step a0l / fact 0 lr\nsame 0\nstep a0l / unfold\nstep a0l /0 fact 0 lr\nstep a0l / select\nstep a1l / unfold\nstep a1l /0 fact 0 lr\n\
step a1l / select\nsame 0\nstep a0l / unfold\nstep a0l /0 fact 0 lr\nstep a0l / select\nstep a1l / unfold\nstep a1l /0 fact 0 lr\nstep a1l / select\n\
same 1\ngoal 3 on 0 1\ncase 0\nstep a0l / unfold\nstep a0l / select\ncase 1\nstep a0r / unfold\nstep a0r / select\nsame 0\nstep a0r / unfold\n\
step a0r / select\nstep a0r / select\nsame 0\ncase 1\nstep a0l / unfold\nstep a0l / select\nstep a0l / select\nstep a0r / unfold\nstep a0r / select\n\
same 0\nsplit wle($2,$5)\nnote wle.conn [] [] [$2,$5]\nstep a0l / fact 0 lr\nsame 0\nstep a0l / unfold\nstep a0l / select\nstep a0l / select\n\
step a0l /0 fact 0 lr\nstep a0l / select\nstep a0r / unfold\nstep a0r / select\nstep a0r / select\nstep a0r /0 fact 1 lr\nstep a0r / select\n\
step a0r /0 fact 0 lr\nstep a0r / select\nhyp [Bind<'0>($2,$3,$4),$7]\nstep a0l /2 fact 2 lr\nsame 0\nsplit wle($5,$2)\nnote wle.conn [] [] [$5,$2]\n\
step a0l / fact 1 lr\nsame 0\nstep f0l / fact 2 lr\nstep a0l / unfold\nstep a0l / select\nstep a0l / select\nstep a0l /0 fact 2 lr\n\
step a0l / select\nstep a0l /0 fact 1 lr\nstep a0l / select\nstep a0r / unfold\nstep a0r / select\nstep a0r / select\nstep a0r /0 fact 1 lr\n\
step a0r / select\nhyp [$4,Bind<'0>($5,$6,$7)]\nstep a0l /2 fact 3 lr\nsame 0\nstep a0l / unfold\nstep a0l / select\nstep a0l / select\n\
step a0l /0 fact 0 lr\nstep a0l / select\nstep a0l /0 fact 1 lr\nstep a0l / select\nstep a0r / unfold\nstep a0r / select\nstep a0r / select\n\
step a0r /0 fact 1 lr\nstep a0r / select\nstep a0r /0 fact 0 lr\nstep a0r / select\nnote wle.antisym [] [] [$2,$5]\nstep a0l / fact 0 lr\nsame 0\n\
step a0l / fact 1 lr\nsame 0\nstep a0l /0 fact 2 lr\nnote %0.comm [] [] [$3,$6]\nstep a0l /1 fact 3 lr\nhyp [$4,$7]\nstep a0l /2 fact 4 lr\nsame 0\n\
goal 4 on 0\ncase 0\nstep a0l / unfold\nstep a0l / select\nsame 0\nsplit wle($1,$1)\nnote wle.conn [] [] [$1,$1]\nstep a0l / fact 0 lr\nsame 0\n\
step f0l / fact 1 lr\nclash 0\nstep a0l / unfold\nstep a0l / select\nstep a0l / select\nstep a0l /0 fact 0 lr\nstep a0l / select\n\
step a0l /0 fact 0 lr\nstep a0l / select\nnote %0.idem [] [] [$2]\nstep a0l /1 fact 1 lr\nhyp [$3]\nstep a0l /2 fact 2 lr\nsame 0\ngoal 5 on 0 1 2\n\
case 0\nstep a0l /0 unfold\nstep a0l /0 select\nstep a0r / unfold\nstep a0r / select\nsame 0\ncase 1\nstep a0l /0 unfold\nstep a0l /0 select\n\
step a0l /0 select\nstep a0r /1 unfold\nstep a0r /1 select\nsame 0\nsplit wle($3,$6)\nnote wle.conn [] [] [$3,$6]\nstep a0l / fact 0 lr\nsame 0\n\
step a0l /0 unfold\nstep a0l /0 select\nstep a0l /0 select\nstep a0l /0/0 fact 0 lr\nstep a0l /0 select\ncase 2\nstep a0l / unfold\n\
step a0l / select\nstep a0l / select\nstep a0r /1 unfold\nstep a0r /1 select\nstep a0r /1 select\nstep a0r / unfold\nstep a0r / select\n\
step a0r / select\nstep a0r /0 fact 0 lr\nstep a0r / select\nsame 0\nsplit wle($6,$9)\nnote wle.conn [] [] [$6,$9]\nstep a0l / fact 2 lr\nsame 0\n\
step a0l / unfold\nstep a0l / select\nstep a0l / select\nstep a0l /0 fact 2 lr\nstep a0l / select\nstep a0r /1 unfold\nstep a0r /1 select\n\
step a0r /1 select\nstep a0r /1/0 fact 2 lr\nstep a0r /1 select\nsplit wle($3,$9)\nnote wle.conn [] [] [$3,$9]\nstep a0l / fact 4 lr\nsame 0\n\
step a0r / unfold\nstep a0r / select\nstep a0r / select\nstep a0r /0 fact 4 lr\nstep a0r / select\nhyp [Bind<'0>($3,$4,$5),Bind<'0>($6,$7,$8),$11]\n\
step a0r /2 fact 6 rl\nstep a0r /2/0 unfold\nstep a0r /2/0 select\nstep a0r /2/0 select\nstep a0r /2/0/0 fact 0 lr\nstep a0r /2/0 select\nsame 0\n\
note wle.trans [] [] [$6,$3,$9]\nstep a0l / fact 1 lr\nsame 0\nstep a0l / fact 4 lr\nsame 0\nstep f5l / fact 2 lr\nclash 5\nsplit wle($9,$6)\n\
note wle.conn [] [] [$9,$6]\nstep a0l / fact 3 lr\nsame 0\nstep f2l / fact 4 lr\nstep a0l / unfold\nstep a0l / select\nstep a0l / select\n\
step a0l /0 fact 4 lr\nstep a0l / select\nstep a0l /0 fact 3 lr\nstep a0l / select\nstep a0r /1 unfold\nstep a0r /1 select\nstep a0r /1 select\n\
step a0r /1/0 fact 4 lr\nstep a0r /1 select\nstep a0r /1/0 fact 3 lr\nstep a0r /1 select\nstep a0r / unfold\nstep a0r / select\nstep a0r / select\n\
step a0r /0 fact 0 lr\nstep a0r / select\nhyp [Bind<'0>($3,$4,$5),$8,Bind<'0>($9,$10,$11)]\nstep a0l /2 fact 5 lr\nsame 0\nstep a0l / unfold\n\
step a0l / select\nstep a0l / select\nstep a0l /0 fact 2 lr\nstep a0l / select\nstep a0l /0 fact 3 lr\nstep a0l / select\nstep a0r /1 unfold\n\
step a0r /1 select\nstep a0r /1 select\nstep a0r /1/0 fact 2 lr\nstep a0r /1 select\nstep a0r /1/0 fact 3 lr\nstep a0r /1 select\nstep a0r / unfold\n\
step a0r / select\nstep a0r / select\nstep a0r /0 fact 0 lr\nstep a0r / select\nhyp [Bind<'0>($3,$4,$5),$8,$11]\nstep a0l /2 fact 4 lr\nsame 0\n\
split wle($6,$3)\nnote wle.conn [] [] [$6,$3]\nstep a0l / fact 1 lr\nsame 0\nstep f0l / fact 2 lr\nstep a0l /0 unfold\nstep a0l /0 select\n\
step a0l /0 select\nstep a0l /0/0 fact 2 lr\nstep a0l /0 select\nstep a0l /0/0 fact 1 lr\nstep a0l /0 select\ncase 2\nstep a0l / unfold\n\
step a0l / select\nstep a0l / select\nstep a0r /1 unfold\nstep a0r /1 select\nstep a0r /1 select\nstep a0r / unfold\nstep a0r / select\n\
step a0r / select\nstep a0r /0 fact 2 lr\nstep a0r / select\nstep a0r /0 fact 1 lr\nstep a0r / select\nsame 0\nsplit wle($3,$9)\n";

/// The rest of that derivation.
pub(crate) const MAPS_SHOWN_ON: &[u8] =
    b"note wle.conn [] [] [$3,$9]\nstep a0l / fact 3 lr\nsame 0\nstep a0l / unfold\nstep a0l / select\nstep a0l / select\nstep a0l /0 fact 3 lr\n\
step a0l / select\nsplit wle($6,$9)\nnote wle.conn [] [] [$6,$9]\nstep a0l / fact 5 lr\nsame 0\nstep a0r /1 unfold\nstep a0r /1 select\n\
step a0r /1 select\nstep a0r /1/0 fact 5 lr\nstep a0r /1 select\nstep a0r / unfold\nstep a0r / select\nstep a0r / select\nstep a0r /0 fact 3 lr\n\
step a0r / select\nhyp [Bind<'0>($3,$4,$5),Bind<'0>($6,$7,$8),$11]\nstep a0r /2 fact 7 rl\nstep a0r /2/0 unfold\nstep a0r /2/0 select\n\
step a0r /2/0 select\nstep a0r /2/0/0 fact 2 lr\nstep a0r /2/0 select\nstep a0r /2/0/0 fact 1 lr\nstep a0r /2/0 select\nsame 0\n\
note wle.trans [] [] [$3,$6,$9]\nstep a0l / fact 2 lr\nsame 0\nstep a0l / fact 5 lr\nsame 0\nstep f6l / fact 3 lr\nclash 6\nsplit wle($9,$3)\n\
note wle.conn [] [] [$9,$3]\nstep a0l / fact 4 lr\nsame 0\nstep f3l / fact 5 lr\nstep a0l / unfold\nstep a0l / select\nstep a0l / select\n\
step a0l /0 fact 5 lr\nstep a0l / select\nstep a0l /0 fact 4 lr\nstep a0l / select\nsplit wle($6,$9)\nnote wle.conn [] [] [$6,$9]\n\
step a0l / fact 6 lr\nsame 0\nstep a0r /1 unfold\nstep a0r /1 select\nstep a0r /1 select\nstep a0r /1/0 fact 6 lr\nstep a0r /1 select\n\
step a0r / unfold\nstep a0r / select\nstep a0r / select\nstep a0r /0 fact 5 lr\nstep a0r / select\nstep a0r /0 fact 4 lr\nstep a0r / select\n\
hyp [$5,Bind<'0>($6,$7,$8),Bind<'0>($9,$10,$11)]\nstep a0l /2 fact 8 lr\nstep a0l /2/1 unfold\nstep a0l /2/1 select\nstep a0l /2/1 select\n\
step a0l /2/1/0 fact 6 lr\nstep a0l /2/1 select\nsame 0\nsplit wle($9,$6)\nnote wle.conn [] [] [$9,$6]\nstep a0l / fact 7 lr\nsame 0\n\
step f6l / fact 8 lr\nstep a0r /1 unfold\nstep a0r /1 select\nstep a0r /1 select\nstep a0r /1/0 fact 8 lr\nstep a0r /1 select\n\
step a0r /1/0 fact 7 lr\nstep a0r /1 select\nstep a0r / unfold\nstep a0r / select\nstep a0r / select\nstep a0r /0 fact 2 lr\nstep a0r / select\n\
step a0r /0 fact 1 lr\nstep a0r / select\nhyp [$5,Bind<'0>($6,$7,$8),Bind<'0>($9,$10,$11)]\nstep a0l /2 fact 9 lr\nstep a0l /2/1 unfold\n\
step a0l /2/1 select\nstep a0l /2/1 select\nstep a0l /2/1/0 fact 8 lr\nstep a0l /2/1 select\nstep a0l /2/1/0 fact 7 lr\nstep a0l /2/1 select\nsame 0\n\
step a0r /1 unfold\nstep a0r /1 select\nstep a0r /1 select\nstep a0r /1/0 fact 6 lr\nstep a0r /1 select\nstep a0r /1/0 fact 7 lr\nstep a0r /1 select\n\
step a0r / unfold\nstep a0r / select\nstep a0r / select\nstep a0r /0 fact 2 lr\nstep a0r / select\nstep a0r /0 fact 1 lr\nstep a0r / select\n\
hyp [$5,Bind<'0>($6,$7,$8),Bind<'0>($9,$10,$11)]\nstep a0l /2 fact 8 lr\nstep a0l /2/1 unfold\nstep a0l /2/1 select\nstep a0l /2/1 select\n\
step a0l /2/1/0 fact 6 lr\nstep a0l /2/1 select\nstep a0l /2/1/0 fact 7 lr\nstep a0l /2/1 select\nsame 0\nstep a0l / unfold\nstep a0l / select\n\
step a0l / select\nstep a0l /0 fact 3 lr\nstep a0l / select\nstep a0l /0 fact 4 lr\nstep a0l / select\nsplit wle($6,$9)\nnote wle.conn [] [] [$6,$9]\n\
step a0l / fact 5 lr\nsame 0\nstep a0r /1 unfold\nstep a0r /1 select\nstep a0r /1 select\nstep a0r /1/0 fact 5 lr\nstep a0r /1 select\n\
step a0r / unfold\nstep a0r / select\nstep a0r / select\nstep a0r /0 fact 3 lr\nstep a0r / select\nstep a0r /0 fact 4 lr\nstep a0r / select\n\
hyp [$5,Bind<'0>($6,$7,$8),$11]\nstep a0l /2 fact 7 lr\nsame 0\nnote wle.trans [] [] [$6,$9,$3]\nstep a0l / fact 5 lr\nsame 0\nstep a0l / fact 4 lr\n\
same 0\nstep f6l / fact 1 lr\nclash 6\nstep a0l /0 unfold\nstep a0l /0 select\nstep a0l /0 select\nstep a0l /0/0 fact 0 lr\nstep a0l /0 select\n\
step a0l /0/0 fact 1 lr\nstep a0l /0 select\ncase 2\nstep a0l / unfold\nstep a0l / select\nstep a0l / select\nstep a0r /1 unfold\nstep a0r /1 select\n\
step a0r /1 select\nstep a0r / unfold\nstep a0r / select\nstep a0r / select\nstep a0r /0 fact 0 lr\nstep a0r / select\nstep a0r /0 fact 1 lr\n\
step a0r / select\nsame 0\nsplit wle($3,$9)\nnote wle.conn [] [] [$3,$9]\nstep a0l / fact 2 lr\nsame 0\nstep a0l / unfold\nstep a0l / select\n\
step a0l / select\nstep a0l /0 fact 2 lr\nstep a0l / select\nsplit wle($6,$9)\nnote wle.conn [] [] [$6,$9]\nstep a0l / fact 4 lr\nsame 0\n\
step a0r /1 unfold\nstep a0r /1 select\nstep a0r /1 select\nstep a0r /1/0 fact 4 lr\nstep a0r /1 select\nstep a0r / unfold\nstep a0r / select\n\
step a0r / select\nstep a0r /0 fact 2 lr\nstep a0r / select\nhyp [Bind<'0>($3,$4,$5),Bind<'0>($6,$7,$8),$11]\nstep a0r /2 fact 6 rl\n\
step a0r /2/0 unfold\nstep a0r /2/0 select\nstep a0r /2/0 select\nstep a0r /2/0/0 fact 0 lr\nstep a0r /2/0 select\nstep a0r /2/0/0 fact 1 lr\n\
step a0r /2/0 select\nsame 0\nnote wle.trans [] [] [$3,$6,$9]\nstep a0l / fact 0 lr\nsame 0\nstep a0l / fact 4 lr\nsame 0\nstep f5l / fact 2 lr\n\
clash 5\nsplit wle($9,$3)\nnote wle.conn [] [] [$9,$3]\nstep a0l / fact 3 lr\nsame 0\nstep f2l / fact 4 lr\nstep a0l / unfold\nstep a0l / select\n\
step a0l / select\nstep a0l /0 fact 4 lr\nstep a0l / select\nstep a0l /0 fact 3 lr\nstep a0l / select\nsplit wle($6,$9)\nnote wle.conn [] [] [$6,$9]\n\
step a0l / fact 5 lr\nsame 0\nstep a0r /1 unfold\nstep a0r /1 select\nstep a0r /1 select\nstep a0r /1/0 fact 5 lr\nstep a0r /1 select\n\
step a0r / unfold\nstep a0r / select\nstep a0r / select\nstep a0r /0 fact 4 lr\nstep a0r / select\nstep a0r /0 fact 3 lr\nstep a0r / select\n\
note wle.trans [] [] [$9,$6,$3]\nstep a0l / fact 6 lr\nsame 0\nstep a0l / fact 1 lr\nsame 0\nstep f7l / fact 3 lr\nclash 7\nsplit wle($9,$6)\n\
note wle.conn [] [] [$9,$6]\nstep a0l / fact 6 lr\nsame 0\nstep f5l / fact 7 lr\nstep a0r /1 unfold\nstep a0r /1 select\nstep a0r /1 select\n\
step a0r /1/0 fact 7 lr\nstep a0r /1 select\nstep a0r /1/0 fact 6 lr\nstep a0r /1 select\nstep a0r / unfold\nstep a0r / select\nstep a0r / select\n\
step a0r /0 fact 0 lr\nstep a0r / select\nstep a0r /0 fact 1 lr\nstep a0r / select\nhyp [$5,$8,Bind<'0>($9,$10,$11)]\nstep a0l /2 fact 8 lr\nsame 0\n\
step a0r /1 unfold\nstep a0r /1 select\nstep a0r /1 select\nstep a0r /1/0 fact 5 lr\nstep a0r /1 select\nstep a0r /1/0 fact 6 lr\nstep a0r /1 select\n\
step a0r / unfold\nstep a0r / select\nstep a0r / select\nstep a0r /0 fact 0 lr\nstep a0r / select\nstep a0r /0 fact 1 lr\nstep a0r / select\n\
note wle.trans [] [] [$9,$6,$3]\nstep a0l / fact 6 lr\nsame 0\nstep a0l / fact 1 lr\nsame 0\nstep f7l / fact 3 lr\nclash 7\nstep a0l / unfold\n\
step a0l / select\nstep a0l / select\nstep a0l /0 fact 2 lr\nstep a0l / select\nstep a0l /0 fact 3 lr\nstep a0l / select\nsplit wle($6,$9)\n\
note wle.conn [] [] [$6,$9]\nstep a0l / fact 4 lr\nsame 0\nstep a0r /1 unfold\nstep a0r /1 select\nstep a0r /1 select\nstep a0r /1/0 fact 4 lr\n\
step a0r /1 select\nstep a0r / unfold\nstep a0r / select\nstep a0r / select\nstep a0r /0 fact 2 lr\nstep a0r / select\nstep a0r /0 fact 3 lr\n\
step a0r / select\nnote wle.trans [] [] [$6,$3,$9]\nstep a0l / fact 1 lr\nsame 0\nstep a0l / fact 2 lr\nsame 0\nstep f6l / fact 4 lr\nclash 6\n\
split wle($9,$6)\nnote wle.conn [] [] [$9,$6]\nstep a0l / fact 5 lr\nsame 0\nstep f4l / fact 6 lr\nstep a0r /1 unfold\nstep a0r /1 select\n\
step a0r /1 select\nstep a0r /1/0 fact 6 lr\nstep a0r /1 select\nstep a0r /1/0 fact 5 lr\nstep a0r /1 select\nstep a0r / unfold\nstep a0r / select\n\
step a0r / select\nstep a0r /0 fact 0 lr\nstep a0r / select\nstep a0r /0 fact 1 lr\nstep a0r / select\nnote wle.trans [] [] [$9,$3,$6]\n\
step a0l / fact 3 lr\nsame 0\nstep a0l / fact 0 lr\nsame 0\nstep f7l / fact 5 lr\nclash 7\nstep a0r /1 unfold\nstep a0r /1 select\n\
step a0r /1 select\nstep a0r /1/0 fact 4 lr\nstep a0r /1 select\nstep a0r /1/0 fact 5 lr\nstep a0r /1 select\nstep a0r / unfold\nstep a0r / select\n\
step a0r / select\nstep a0r /0 fact 0 lr\nstep a0r / select\nstep a0r /0 fact 1 lr\nstep a0r / select\nnote %0.assoc [] [] [$4,$7,$10]\n\
step a0l /1 fact 6 lr\nhyp [$5,$8,$11]\nstep a0l /2 fact 7 lr\nsame 0\ngoal 6 on 0 1\nnote join.comm [Word] [wmax] [$0,$1]\nstep a0l / fact 0 lr\n\
same 0\n";
