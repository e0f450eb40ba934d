//! Wrong lists, which show that each comparison can fail.

/// A list for each kind of difference, written as in the files of cases. The right lists of the two texts differ in what
/// the name of the case says, and in nothing else.
pub const LISTS: &str = "= another text
< --- &x !t a
> +STR @ 0,1,0 0,1,0
> +DOC --- @ 0,1,0 3,1,3
> =VAL &1 <!t> :b @ 4,1,4 11,1,11
> -DOC @ 11,2,0 11,2,0
> -STR @ 11,2,0 11,2,0
= another style
< --- &x !t a
> +STR @ 0,1,0 0,1,0
> +DOC --- @ 0,1,0 3,1,3
> =VAL &1 <!t> \"a @ 4,1,4 11,1,11
> -DOC @ 11,2,0 11,2,0
> -STR @ 11,2,0 11,2,0
= another anchor
< --- &x !t a
> +STR @ 0,1,0 0,1,0
> +DOC --- @ 0,1,0 3,1,3
> =VAL &2 <!t> :a @ 4,1,4 11,1,11
> -DOC @ 11,2,0 11,2,0
> -STR @ 11,2,0 11,2,0
= another tag
< --- &x !t a
> +STR @ 0,1,0 0,1,0
> +DOC --- @ 0,1,0 3,1,3
> =VAL &1 <!s> :a @ 4,1,4 11,1,11
> -DOC @ 11,2,0 11,2,0
> -STR @ 11,2,0 11,2,0
= another kind of event
< --- &x !t a
> +STR @ 0,1,0 0,1,0
> +DOC --- @ 0,1,0 3,1,3
> =ALI *1 @ 4,1,4 11,1,11
> -DOC @ 11,2,0 11,2,0
> -STR @ 11,2,0 11,2,0
= another start
< --- &x !t a
> +STR @ 0,1,0 0,1,0
> +DOC --- @ 0,1,0 3,1,3
> =VAL &1 <!t> :a @ 7,1,7 11,1,11
> -DOC @ 11,2,0 11,2,0
> -STR @ 11,2,0 11,2,0
= another end
< --- &x !t a
> +STR @ 0,1,0 0,1,0
> +DOC --- @ 0,1,0 3,1,3
> =VAL &1 <!t> :a @ 4,1,4 12,1,12
> -DOC @ 11,2,0 11,2,0
> -STR @ 11,2,0 11,2,0
= no marker
< --- &x !t a
> +STR @ 0,1,0 0,1,0
> +DOC @ 0,1,0 3,1,3
> =VAL &1 <!t> :a @ 4,1,4 11,1,11
> -DOC @ 11,2,0 11,2,0
> -STR @ 11,2,0 11,2,0
= an event too many
< --- &x !t a
> +STR @ 0,1,0 0,1,0
> +DOC --- @ 0,1,0 3,1,3
> =VAL &1 <!t> :a @ 4,1,4 11,1,11
> -DOC @ 11,2,0 11,2,0
> -STR @ 11,2,0 11,2,0
> -STR @ 11,2,0 11,2,0
= an event too few
< --- &x !t a
> +STR @ 0,1,0 0,1,0
> +DOC --- @ 0,1,0 3,1,3
> =VAL &1 <!t> :a @ 4,1,4 11,1,11
> -DOC @ 11,2,0 11,2,0
= a fault too many
< --- &x !t a
> +STR @ 0,1,0 0,1,0
> +DOC --- @ 0,1,0 3,1,3
> =VAL &1 <!t> :a @ 4,1,4 11,1,11
> -DOC @ 11,2,0 11,2,0
> -STR @ 11,2,0 11,2,0
! misplaced bracket at byte 11 line 2 column 1
= another fault
< ]
> +STR @ 0,1,0 0,1,0
! found unprintable character at byte 0 line 1 column 1
= another place of the fault
< ]
> +STR @ 0,1,0 0,1,0
! misplaced bracket at byte 0 line 1 column 2
= a fault too few
< ]
> +STR @ 0,1,0 0,1,0
";
